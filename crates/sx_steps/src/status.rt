//! How a run ended.

ghost use Rattle.std.specs.Prelude.{◌≡◌};
ghost use Rattle.sx_steps.specs.Status.{code_of};

/// How a run ended.
#[derive(Clone, Copy, PartialEq, Eq, Debug)]
pub enum Status {
    /// All checks passed, all files were written, and the lines.
    Done,
    /// The input has a defect, which one line names.
    Refused,
    /// The words are no command.
    Words,
    /// A read of the shelf failed.
    ReadFault,
    /// A write on the shelf or the sink failed.
    WriteFault,
    /// Memory was lacking.
    NoMemory,
    /// A budget was spent.
    Spent,
}

impl Status {
    /// The exit code.
    pub fn code(&self) -> u8
        ensures { result ≡ code_of self.now }
    {
        match self {
            Status::Done => 0,
            Status::Refused => 1,
            Status::Words => 2,
            Status::ReadFault => 3,
            Status::WriteFault => 4,
            Status::NoMemory => 5,
            Status::Spent => 6,
        }
    }
}
