//! The three files of a unit that was built.

ghost use Rattle.std.specs.Prelude.{◌≡◌, ◌++◌, IfOk, [], ◌∷◌};
ghost use Rattle.sx_steps.specs.Unit.{nodes_line as line_of_nodes, built_plan};
ghost use Rattle.sx_steps.specs.Work.{plan_of, file_of};

use crate::joining::with_suffix;
use crate::work::{Output, Work};
use std::alloc::Global;
use sx_term::{NoMemory, Text};

/// A file to write, under the name with a suffix.
fn output(alloc: Global, name: &Text, suffix: &str, bytes: Vec<u8>) -> Result<Output, NoMemory>
    ensures { IfOk result (λ file.
        file_of file ≡ record { name = name.now ++ suffix.now; bytes = bytes.items }) }
{
    let name = with_suffix(alloc, name, suffix)?;
    Ok(Output { name, bytes })
}

/// Three files in order.
fn three(
    alloc: Global,
    first: Output,
    second: Output,
    third: Output,
) -> Result<Vec<Output>, NoMemory>
    ensures { IfOk result (λ files. files.items ≡ first ∷ second ∷ third ∷ []) }
{
    let mut files = Vec::new(alloc);
    files.push(first)?;
    files.push(second)?;
    files.push(third)?;
    Ok(files)
}

/// The line that says of a name what was done, and with how many nodes: the word, the name and the
/// number of nodes. The one refusal is out of memory.
pub fn nodes_line(alloc: Global, word: &str, name: &Text, nodes: u64) -> Result<Vec<u8>, NoMemory>
    ensures { IfOk result (λ bytes. bytes.items ≡ line_of_nodes word.now name.now nodes) }
{
    let mut bytes = Vec::from_slice(alloc, word.as_bytes())?;
    bytes.push(b' ')?;
    bytes.extend_from_slice(name.bytes())?;
    bytes.extend_from_slice(b": ")?;
    let digits = nodes.to_string(alloc)?;
    bytes.extend_from_slice(digits.as_bytes())?;
    bytes.extend_from_slice(b" nodes\n")?;
    Ok(bytes)
}

/// The three files of a unit, and the line.
pub fn built_work(
    alloc: Global,
    name: &Text,
    base: Vec<u8>,
    list: Vec<u8>,
    interface: Vec<u8>,
    nodes: u64,
) -> Result<Work, NoMemory>
    ensures { IfOk result (λ work.
        plan_of work ≡ built_plan name.now base.items list.items interface.items nodes) }
{
    let base = output(alloc, name, ".base", base)?;
    let list = output(alloc, name, ".der", list)?;
    let interface = output(alloc, name, ".int", interface)?;
    let files = three(alloc, base, list, interface)?;
    let lines = nodes_line(alloc, "built", name, nodes)?;
    Ok(Work { files, lines })
}
