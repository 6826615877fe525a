//! Making environments.

ghost use Rattle.std.specs.Prelude.{◌≡◌, ◌⊎◌, ◌<◌, ◌≤◌, IfOk, IfErr};
ghost use Rattle.sx_term.specs.declared.role.Role.TheVariants.{In};
ghost use Rattle.sx_term.specs.Term.{tree};
ghost use Rattle.sx_term.specs.Tree.{Tree, depth_of};
ghost use Rattle.sx_interface.specs.InterfaceView.{interface_view};
ghost use Rattle.sx_typing.specs.Dialects.{IsDialectOf};
ghost use Rattle.sx_typing.specs.BodySource.{IsTermFor};
ghost use Rattle.sx_environment.specs.Environments as known;
ghost use Rattle.sx_environment.specs.Environments.{IsEnvironment};
ghost use Rattle.sx_environment.specs.ImportErrors.{HasNoEnvironment, IsBadImport};
ghost use Rattle.sx_environment.specs.declared.import_error.ImportError.TheVariants.{Memory};
ghost use Rattle.sx_environment.specs.declared.import_error.ImportError.TheVariants.{TooDeep};
ghost use Rattle.sx_environment.specs.Seen.{IsGoodImport};
ghost use Rattle.sx_environment.specs.SeenFrom.{CanSee, IsShort, interfaces_of, seen_from};
ghost use Rattle.sx_term.specs.Limits.{most_depth};

use crate::import_error::ImportError;
use crate::numbered::Numbered;
use crate::seeing::seen_term;
use crate::surroundings::Surroundings;
use std::alloc::Global;
use sx_interface::Import;
use sx_term::{LexKind, MOST_DEPTH, NoMemory, Term, Text};

/// An environment that imports are added to, with its depth.
#[derive(Drop)]
struct Grown {
    term: Term,
    depth: u32,
    ghost deep: { depth ≡ depth_of (tree term) },
}

/// The language's empty environment.
fn empty(alloc: Global, given: &Surroundings) -> Grown
    ensures { tree result.term ≡ known.empty_environment (seen_from given.now) }
{
    Grown {
        term: Term::Node {
            label: given.dialect.language.main.empty,
            kids: Vec::new(alloc),
        },
        depth: 1,
    }
}

/// The node that adds a name, with what is seen of it, to an environment.
fn add_node(
    alloc: Global,
    given: &Surroundings,
    before: Term,
    name: &Text,
    seen: Term,
) -> Result<Term, NoMemory>
    ensures { IfOk result (λ t. tree t ≡
        known.with_import (seen_from given.now) (tree before) name.now (tree seen)) }
{
    let name = Term::Lex {
        kind: LexKind::Id,
        text: name.copy(alloc)?,
    };
    Ok(Term::Node {
        label: given.dialect.language.main.add,
        kids: Vec::from_array(alloc, [before, name, seen])?,
    })
}

/// The environment with an import and what is seen of it.
fn with_import(
    alloc: Global,
    given: &Surroundings,
    before: Grown,
    name: &Text,
    seen: Term,
) -> Result<Grown, ImportError>
    requires before { depth_of (tree before.term) ≤ most_depth }
    requires seen { depth_of (tree seen) ≤ most_depth }
    ensures made { IfOk result (λ e. tree e.term ≡
        known.with_import (seen_from given.now) (tree before.term) name.now (tree seen)) }
    ensures shallow { IfOk result (λ e. depth_of (tree e.term) ≤ most_depth) }
    ensures refused { IfErr result (λ e. (e ≡ Memory) ⊎ ((e ≡ TooDeep
        (depth_of (known.with_import (seen_from given.now) (tree before.term) name.now
        (tree seen)))) × (most_depth < depth_of
        (known.with_import (seen_from given.now) (tree before.term) name.now (tree seen))))) }
{
    let depth = before.depth.max(seen.depth()) + 1;
    if depth > MOST_DEPTH {
        drop(seen);
        drop(before);
        return Err(ImportError::TooDeep(depth));
    }
    let term = add_node(alloc, given, before.term, name, seen)?;
    Ok(Grown { term, depth })
}

/// The environment with the import, and with the term that is seen of it.
fn added(
    alloc: Global,
    given: &Surroundings,
    before: Grown,
    import: &Numbered,
) -> Result<Grown, ImportError>
    requires dialect { IsDialectOf given.now.dialect }
    requires short { IsShort (interface_view import.now.interface.now) }
    requires shallow { depth_of (tree before.term) ≤ most_depth }
    ensures made { IfOk result (λ e. (seen : Tree) ×
        IsGoodImport (seen_from given.now) (interface_view import.now.interface.now) seen ×
        (tree e.term ≡ known.with_import (seen_from given.now) (tree before.term)
        (interface_view import.now.interface.now).name seen)) }
    ensures shallow { IfOk result (λ e. depth_of (tree e.term) ≤ most_depth) }
    ensures refused { IfErr result (IsBadImport (seen_from given.now) import.now.number
        (tree before.term) (interface_view import.now.interface.now)) }
{
    match seen_term(alloc, given, import) {
        Ok(seen) => with_import(alloc, given, before, &import.interface.module, seen),
        Err(error) => {
            drop(before);
            Err(error)
        }
    }
}

/// The environment of a module by the interfaces of its imports, in the order of its header: the
/// language's empty environment, to which each import's name and the term that is seen of it are
/// added.
///
/// An import is seen by its stated signature exactly where it uses extensions, and just those in
/// use, by their names and digests, in the same order. That is read by the grammar of the dialect,
/// and each signature by the language's.
///
/// For the imports in order, one is refused as LanguageDiffers where its language has another name;
/// as Differs where it keeps another digest of the language's file; as Token or Read where its
/// signature is not read, and then where its stated signature is seen and not read; as
/// StatedDiffers where the plain image of the stated signature that is seen is not the signature;
/// and as TooDeep where the environment with it is deeper than 1,000. The first is answered.
pub fn environment(
    alloc: Global,
    given: &Surroundings,
    imports: &[Import],
) -> Result<Term, ImportError>
    requires { CanSee given.now imports.now }
    ensures made { IfOk result
        (λ t. IsEnvironment (seen_from given.now) (interfaces_of imports.now) (tree t)) }
    // It is a term of the dialect, and its lexemes are no literals of the language.
    ensures good { IfOk result (λ t. IsTermFor (seen_from given.now).dialect In (tree t)) }
    ensures refused { IfErr result (HasNoEnvironment (seen_from given.now)
        (interfaces_of imports.now)) }
{
    let mut environment = empty(alloc, given);
    for i in 0..imports.len() {
        let import = &imports[i];
        let numbered = Numbered {
            number: i,
            interface: &import.interface,
        };
        environment = added(alloc, given, environment, &numbered)?;
    }
    Ok(environment.term)
}
