//! What is proved of searches that can be taken up again.

ghost use Rattle.sx_derive.specs.Resumable.{SearchesStayStopped};

/// A search that has come to a stop or to the end of its events answers so in each later call, and
/// makes no try.
pub fn searches_stay_stopped()
    ensures { SearchesStayStopped }
{}
