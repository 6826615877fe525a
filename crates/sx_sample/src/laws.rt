//! Laws of the sample module.

ghost use Rattle.sx_sample.specs.Laws.{TokensAreCounted};

/// The body of the sample module has five tokens for each name, and one more.
pub fn tokens_are_counted()
    ensures { TokensAreCounted }
{}
