//! Writing a module's texts.

ghost use Rattle.std.specs.Prelude.{◌≡◌, ◌++◌, ◌∷◌, [], length, IfOk, IfErr, OnOk};
ghost use Rattle.std.specs.List.{AllByRecursion};
ghost use Rattle.sx_term.specs.Term.{tree};
ghost use Rattle.sx_rules.specs.Derivations.{Proof, nodes_of};
ghost use Rattle.sx_rules.specs.EntryView.{entries};
ghost use Rattle.sx_rules.specs.ListText.{IsEntry};
ghost use Rattle.sx_rules.specs.Orders.{order_of};
ghost use Rattle.sx_rules.specs.Sets.{names_in};
ghost use Rattle.sx_words.specs.declared.print_defect.PrintedPart.TheVariants as part;
ghost use Rattle.sx_forest.specs.Readings.{plain_reading};
ghost use Rattle.sx_typing.specs.BodySource.{CanType};
ghost use Rattle.sx_typing.specs.Goals.{IsBody};
ghost use Rattle.sx_unit.specs.Modules.{module_data};
ghost use Rattle.sx_unit.specs.PrintedParts.{printed_of};
ghost use Rattle.sx_unit.specs.Texts.{printed, base_text};
ghost use Rattle.sx_unit.specs.Written.{ArePrintable, IsGoodPart, IsUnwritten, IsWritten, unit_of};

use crate::compiled::Compiled;
use crate::known_reading::check_body;
use crate::module_source::ModuleSource;
use crate::printed_terms::PrintedTerms;
use crate::showing::show;
use crate::signature_writing::put_signatures;
use crate::texts::{base_text, derivation_text};
use std::alloc::Global;
use sx_rules::Entry;
use sx_term::NoMemory;
use sx_typing::{Body, ModuleError};

/// The base file, and how many tokens its printed body has.
#[derive(Drop)]
struct Base {
    text: Vec<u8>,
    tokens: u32,
}

/// Ends the line.
fn end_line(text: &mut Vec<u8>) -> Result<(), NoMemory>
    ensures { OnOk result (text.new.items ≡ text.old.items ++ 10 ∷ []) }
{
    text.push(b'\n')?;
    Ok(())
}

/// The base file with the printed subject, where this body was read.
fn put_body(
    alloc: Global,
    given: &ModuleSource,
    body: &Body,
    terms: &PrintedTerms,
) -> Result<Base, ModuleError>
    requires can { CanType given.now.source }
    requires body { IsBody (module_data given.now).source body.now.tokens.items
        (plain_reading body.now.reading) (tree body.now.term) }
    requires terms { ArePrintable (module_data given.now).source.dialect (printed_of terms.now) }
    ensures text { IfOk result
        (λ b. b.text.items ≡ base_text (module_data given.now) (printed_of terms.now)) }
    ensures good { IfOk result
        (λ b. IsGoodPart (module_data given.now) (printed_of terms.now) part.Body) }
    ensures tokens { IfOk result
        (λ b. b.tokens ≡ length (printed (module_data given.now).source.dialect.language.parts
        (printed_of terms.now).subject)) }
    ensures refused { IfErr result (IsUnwritten (module_data given.now) (printed_of terms.now)) }
{
    let grammar = &given.source.dialect.language.grammar;
    let mut shown = show(alloc, grammar, terms.subject)?;
    let text = base_text(alloc, given.source.header, &shown)?;
    end_line(&mut shown)?;
    let size = text.len();
    let tokens = check_body(alloc, given, body, size, terms.subject, &shown)?;
    Ok(Base { text, tokens })
}

/// The texts of a module with this body, whose derivation is lowered to one with this list, and
/// whose terms are printed. It is refused where a file is too long, a printed text has not one
/// reading, or a name of the stated signature is a literal.
pub(crate) fn write_module(
    alloc: Global,
    given: &ModuleSource,
    body: &Body,
    terms: &PrintedTerms,
    list: Vec<Entry>,
) -> Result<Compiled, ModuleError>
    requires can { CanType given.now.source }
    requires body { IsBody (module_data given.now).source body.now.tokens.items
        (plain_reading body.now.reading) (tree body.now.term) }
    requires terms { ArePrintable (module_data given.now).source.dialect (printed_of terms.now) }
    requires names { AllByRecursion (IsEntry (names_in given.now.source.dialect.language.now.rules))
        list.items }
    ensures written { IfOk result (λ c. (q : Proof) → entries list.items ≡ order_of q →
        length list.items ≡ nodes_of q →
        IsWritten (module_data given.now) (printed_of terms.now) q (unit_of c)) }
    ensures tokens { IfOk result (λ c. c.source_tokens ≡ length body.now.tokens.items) }
    ensures refused { IfErr result (IsUnwritten (module_data given.now) (printed_of terms.now)) }
{
    let base = put_body(alloc, given, body, terms)?;
    let interface = put_signatures(alloc, given, terms, &base.text)?;
    let derivation = derivation_text(alloc, &given.source.dialect.language.rules, &list)?;
    Ok(Compiled {
        base: base.text,
        interface,
        derivation,
        nodes: list.len() as u64,
        list,
        source_tokens: body.tokens.len() as u32,
        base_tokens: base.tokens,
    })
}
