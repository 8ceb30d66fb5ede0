//! How a run ends: a status, its exit code, and its line on errs.

ghost use Rattle.std.specs.Prelude.{◌≡◌};
ghost use Rattle.bs_top.specs.ErrorLines.{code_of};

use bs_script::Reason;

/// How a run ended.
#[derive(Clone, Copy, Debug, PartialEq, Eq)]
pub enum Status {
    /// The text was written and flushed.
    Done,
    /// The words are not those of a call.
    Usage,
    /// The input is refused at this line, counted from 1.
    Refused { line: u64, reason: Reason },
    /// The source failed.
    ReadFault,
    /// The sink failed; a front of the text was written.
    WriteFault,
    /// Memory ran out.
    NoMemory,
    /// The input is longer than `INPUT_LIMIT`.
    TooLong,
}

impl Status {
    /// The exit code.
    pub fn code(&self) -> u8
        ensures { result ≡ code_of self.now }
    {
        match self {
            Status::Done => 0,
            Status::Usage => 2,
            Status::Refused { .. } => 3,
            Status::ReadFault => 4,
            Status::WriteFault => 5,
            Status::NoMemory => 6,
            Status::TooLong => 7,
        }
    }
}
