//! Names that are literals.

ghost use Rattle.std.specs.Prelude.{◌≤◌, MatchOption};
ghost use Rattle.sx_term.specs.Term.{tree};
ghost use Rattle.sx_term.specs.Tree.{depth_of};
ghost use Rattle.sx_grammar.specs.Tables.{literals_of};
ghost use Rattle.sx_interface.specs.FreeNames.{AreFree, IsFirstIn};
ghost use Rattle.sx_unit.specs.Captured.{lexeme_name, IsFree, IsCaptured};
ghost use Rattle.sx_term.specs.Limits.{most_depth};

use sx_grammar::Grammar;
use sx_term::{LexKind, Term, Text};

/// The lexeme, where it is a name that is a literal of the grammar.
fn captured_name<'a>(grammar: &Grammar, kind: LexKind, text: &'a Text) -> Option<&'a Text>
    ensures { MatchOption result
        (AreFree (literals_of grammar.entry.now.parts) (lexeme_name kind text.entry.now))
        (λ word. IsFirstIn (literals_of grammar.entry.now.parts) (lexeme_name kind text.entry.now)
        word.now) }
{
    match kind {
        LexKind::Id => match grammar.literal_number(text.bytes()) {
            Some(_) => Some(text),
            None => None,
        },
        LexKind::Num | LexKind::Str => None,
    }
}

/// The first name in the term, in preorder, that is a literal of the grammar.
pub(crate) fn captured<'a>(grammar: &Grammar, term: &'a Term) -> Option<&'a Text>
    requires { depth_of (tree term.now) ≤ most_depth }
    ensures { MatchOption result
        (IsFree (literals_of grammar.entry.now.parts) (tree term.entry.now))
        (λ word. IsCaptured (literals_of grammar.entry.now.parts) (tree term.entry.now) word.now) }
{
    match term {
        Term::Node { label: _, kids } => {
            for i in 0..kids.len() {
                let kid = &kids[i];
                if let Some(word) = captured(grammar, kid) {
                    return Some(word);
                }
            }
            None
        }
        Term::Lex { kind, text } => captured_name(grammar, *kind, text),
        Term::Var(_) => None,
    }
}
