//! Kinds of files that stand on one another.

ghost use Rattle.std.specs.Prelude.{◌≡◌, IfOk};
ghost use Rattle.sx_outside.specs.Told.{WhereTold};
ghost use Rattle.sx_steps.specs.Stop.{Gives, OnlyReads, IsNoFault};
ghost use Rattle.sx_walking.specs.Kinds.{WalkKind, StandsOn};

use std::alloc::Global;
use sx_outside::Shelf;
use sx_steps::StepError;
use sx_term::{NoMemory, Text};

/// A kind of files that stand on one another.
pub trait WalkedKind {
    /// A file of this kind, as far as it is read.
    type File: Drop;

    /// What a file says, as plain data.
    ghost Data: { Type 0 };

    /// What this file says.
    ghost says: { Self.File → Data };

    /// What a walk takes from the kind.
    ghost kind: { Self → WalkKind Data };

    /// A copy of the name of the file.
    fn name(&self, alloc: Global, file: &Self::File) -> Result<Text, NoMemory>
        ensures { IfOk result (λ name. name ≡ (kind self.now).name_of (says file.now)) };

    /// Reads the file with this name.
    fn read<S: Shelf>(
        &self,
        alloc: Global,
        name: &Text,
        shelf: &mut S,
    ) -> Result<Self::File, StepError>
        ensures step { WhereTold (S.content shelf.old)
            (λ files. Gives says ((kind self.now).Reads files name.now) result) }
        ensures named { IfOk result (λ x. (kind self.now).name_of (says x) ≡ name.now) }
        ensures stated { IfOk result (λ x. (kind self.now).IsStated (says x)) }
        ensures reads { OnlyReads (S.content shelf.old) (S.content shelf.new)
            (S.read_faults shelf.old) (S.read_faults shelf.new)
            (S.write_faults shelf.old) (S.write_faults shelf.new) result };

    /// The names that the file with this name stands on, or the refusal of one that does not fit.
    fn stands_on(
        &self,
        alloc: Global,
        name: &Text,
        file: &Self::File,
    ) -> Result<Vec<Text>, StepError>
        ensures step { Gives (λ names. names.items)
            (StandsOn (kind self.now) name.now (says file.now)) result }
        ensures no_fault { IsNoFault result };
}
