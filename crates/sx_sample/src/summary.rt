//! The line that tells how big a sample is.

ghost use Rattle.std.specs.Prelude.{◌≡◌, ◌++◌, IfOk, OnOk};
ghost use Rattle.std.specs.Fmt.{decimal};
ghost use Rattle.sx_sample.specs.Summaries.{summary_line};

use std::alloc::Global;
use sx_term::NoMemory;

/// How big a sample is: the number of its names, the tokens of its body and of the body that it is
/// lowered to, and the nodes of the lowered derivation.
#[derive(Clone, Copy, Debug, PartialEq, Eq)]
pub struct Summary {
    pub number: u32,
    pub source_tokens: u32,
    pub base_tokens: u32,
    pub nodes: u64,
}

/// Appends a word, and then a number.
fn put(alloc: Global, word: &[u8], number: u64, into: &mut Vec<u8>) -> Result<(), NoMemory>
    ensures { OnOk result (into.new.items ≡ into.old.items ++ (word.now ++ decimal number)) }
{
    into.extend_from_slice(word)?;
    let digits = number.to_string(alloc)?;
    into.extend_from_slice(digits.as_bytes())?;
    Ok(())
}

/// The line of the summary, with its line feed.
pub fn summary_line(alloc: Global, summary: &Summary) -> Result<Vec<u8>, NoMemory>
    ensures { IfOk result (λ bytes. bytes.items ≡ summary_line summary.now) }
{
    let mut line = Vec::new(alloc);
    put(alloc, b"sample ", u64::from(summary.number), &mut line)?;
    put(
        alloc,
        b": source ",
        u64::from(summary.source_tokens),
        &mut line,
    )?;
    put(
        alloc,
        b" tokens, base ",
        u64::from(summary.base_tokens),
        &mut line,
    )?;
    put(alloc, b" tokens, ", summary.nodes, &mut line)?;
    line.extend_from_slice(b" nodes\n")?;
    Ok(line)
}
