//! Why an input is no script.

ghost use Rattle.std.specs.Prelude.{◌≡◌};
ghost use Rattle.bs_script.specs.Reasons.{reason_text};

use std::alloc::AllocError;

/// Why a line is refused. Where more than one applies, the first in the order of the grammar is given.
#[derive(Clone, Copy, Debug, PartialEq, Eq)]
pub enum Reason {
    /// A byte that is not allowed.
    Byte,
    /// A line that begins no block, or has too few or too many words for it.
    Word,
    /// A format that is not known.
    Format,
    /// One tableau, session or command too many.
    TooMany,
    /// An earlier tableau has the name.
    Name,
    /// A number out of its range, or a row with another number of words than there are stages.
    Count,
    /// A word of a row that is not a fraction.
    Fraction,
    /// Another line than the one that has to come next in a tableau.
    Missing,
    /// The input ends in a block.
    End,
}

impl Reason {
    /// The reason in words, as `end missing`.
    pub fn text(&self) -> &'static str
        ensures { result.now ≡ reason_text self.now }
    {
        match self {
            Reason::Byte => "bad byte",
            Reason::Word => "unknown line",
            Reason::Format => "unknown format",
            Reason::TooMany => "too many",
            Reason::Name => "name taken",
            Reason::Count => "bad count",
            Reason::Fraction => "bad fraction",
            Reason::Missing => "line missing",
            Reason::End => "end missing",
        }
    }
}

/// Why an input was not read.
#[derive(Debug, Drop)]
pub enum ScriptFault {
    /// The input is no script.
    Refused {
        /// The number of the refused line, from 1; where an `end` is missing, of the last line.
        line: u64,
        /// Why it is refused.
        reason: Reason,
    },
    /// Memory ran out.
    Memory(AllocError),
}

impl From<AllocError> for ScriptFault {
    ghost use Rattle.std.specs.Prelude.{◌≡◌};
    ghost use Rattle.bs_script.specs.declared.reason.ScriptFault.TheVariants.{Memory};

    ghost from_gives = { λ cause e. e ≡ Memory cause };

    fn from(cause: AllocError) -> ScriptFault {
        ScriptFault::Memory(cause)
    }
}
