//! Reading an extension file before its texts are read.

ghost use Rattle.std.specs.Prelude.{◌≡◌, ◌≤◌, length, IfOk, IfErr};
ghost use Rattle.sx_extension.specs.Grounds.{ground, IsGroundBefore};
ghost use Rattle.sx_language.specs.States.{AreStems};
ghost use Rattle.sx_extension.specs.Stages.{IsOutlineRefusal, IsUsableExtension, IsUnoutlined};
ghost use Rattle.sx_extension.specs.Stages.{IsPreparedExtension};
ghost use Rattle.sx_extension.specs.Stages.{IsUnprepared};
ghost use Rattle.sx_term.specs.Limits.{most_bytes};

use crate::before::Before;
use crate::grammars::Grammars;
use crate::own_tables::{OwnTables, make_tables};
use crate::prepared::Prepared;
use std::alloc::Global;
use sx_directives::VarLine;
use sx_language::var_lines;
use sx_notation::NotationError;
use sx_outline::{ExtensionHeader, ExtensionOutline, OutlineError, read_extension_outline};
use sx_term::Text;

/// The refusal of a text that has no outline.
fn outline_error(error: OutlineError) -> NotationError
    ensures { IsOutlineRefusal error result }
{
    match error {
        OutlineError::Memory => NotationError::Memory,
        OutlineError::NotUtf8(place) => NotationError::NotUtf8(place),
        OutlineError::Notation { line, kind } => NotationError::Notation { line, kind },
    }
}

/// The outline of the text after the stems of the language.
fn outline_after(
    alloc: Global,
    before: &Before,
    vars: &[VarLine],
    bytes: &[u8],
) -> Result<ExtensionOutline, NotationError>
    requires before { IsGroundBefore (ground before.now) }
    requires stems { AreStems (ground before.now).language vars.now (ground before.now).stems }
    requires short { length bytes.now ≤ most_bytes }
    ensures usable { IfOk result (IsUsableExtension (ground before.now) bytes.now) }
    ensures refused { IfErr result (IsUnoutlined (ground before.now) bytes.now) }
{
    before.grammar.facts();
    before.rule_grammar.facts();
    let sorts = &before.language.grammar.parts().sorts;
    match read_extension_outline(alloc, sorts, vars, bytes) {
        Ok(outline) => Ok(outline),
        Err(error) => Err(outline_error(error)),
    }
}

/// The outline of the text.
fn outline_of(
    alloc: Global,
    before: &Before,
    bytes: &[u8],
) -> Result<ExtensionOutline, NotationError>
    requires before { IsGroundBefore (ground before.now) }
    requires short { length bytes.now ≤ most_bytes }
    ensures usable { IfOk result (IsUsableExtension (ground before.now) bytes.now) }
    ensures refused { IfErr result (IsUnoutlined (ground before.now) bytes.now) }
{
    let language = before.language;
    let vars = var_lines(alloc, &language.grammar, &language.metas)?;
    let outline = outline_after(alloc, before, &vars, bytes);
    drop(vars);
    outline
}

/// The name that the header states.
fn name_of(header: ExtensionHeader) -> Text
    ensures { result ≡ header.name }
{
    let ExtensionHeader {
        name,
        language,
        uses,
    } = header;
    drop(uses);
    drop(language);
    name
}

/// What the text states before the lines of its plain pairs and its rules are read.
pub(crate) fn prepare(
    alloc: Global,
    before: &Before,
    bytes: &[u8],
) -> Result<Prepared, NotationError>
    requires before { IsGroundBefore (ground before.now) }
    requires short { length bytes.now ≤ most_bytes }
    ensures prepared { IfOk result (IsPreparedExtension (ground before.now) bytes.now) }
    ensures refused { IfErr result (IsUnprepared (ground before.now) bytes.now) }
{
    let ExtensionOutline {
        header,
        productions,
        vars,
        plains,
        rules,
    } = match outline_of(alloc, before, bytes) {
        Ok(outline) => outline,
        Err(error) => return Err(error),
    };
    let made = make_tables(alloc, before, productions, &vars);
    drop(vars);
    let name = name_of(header);
    match made {
        Ok(OwnTables { grammars, metas }) => {
            let Grammars {
                grammar,
                rule_grammar,
            } = grammars;
            Ok(Prepared {
                name,
                grammar,
                rule_grammar,
                metas,
                plains,
                rules,
            })
        }
        Err(error) => {
            drop(rules);
            drop(plains);
            drop(name);
            Err(error)
        }
    }
}
