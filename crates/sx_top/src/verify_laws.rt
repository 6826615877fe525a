//! What is proved of `verify --core`.

ghost use Rattle.sx_top.specs.VerifyLaws.{FoundIsWithin, BuiltIsVerified};

/// What a walk finds is replayed within the limits.
pub fn found_is_within()
    ensures { FoundIsWithin }
{}

/// What `build --core` leaves is verified by `verify --core`, where the texts of the outputs are
/// short enough to be read.
pub fn built_is_verified()
    ensures { BuiltIsVerified }
{}
