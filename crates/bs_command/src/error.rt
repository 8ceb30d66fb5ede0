//! Why a command is refused.

ghost use Rattle.std.specs.Prelude.{◌≡◌};
ghost use Rattle.bs_command.specs.Errors.{error_number};

use std::alloc::AllocError;

/// Why a command is refused; the numbers are those of the replies.
#[derive(Clone, Copy, Debug, PartialEq, Eq)]
pub enum Error {
    /// The first word is no command, or a series is of no kind.
    Command,
    /// The command has another number of words.
    Words,
    /// A name stands for nothing that the command could take.
    Name,
    /// The new name is taken.
    Taken,
    /// A word that asks for a number of nodes or colours is no number from 1, or a factor is no fraction.
    Number,
    /// The levels are not those of a tree.
    Levels,
    /// The colours are not one for each node, the tableau or the series does not have one of them, more are asked for than there
    /// are, or two series do not have the colours that go together.
    Colours,
    /// The tree, or what is asked for, has too many nodes.
    TooLarge,
    /// The trees to the order that is asked for are too many.
    TooMany,
    /// A series has another value at the empty tree than the operation needs.
    EmptyValue,
    /// The equation of a modifying integrator has no solution.
    NotSolvable,
    /// The session's replies would be too long.
    Replies,
    /// The expression of a series is too deep, or has too many nodes.
    TooDeep,
}

impl Error {
    /// The number of the error.
    pub fn number(&self) -> u8
        ensures { result ≡ error_number self.now }
    {
        match self {
            Error::Command => 1,
            Error::Words => 2,
            Error::Name => 3,
            Error::Taken => 4,
            Error::Number => 5,
            Error::Levels => 6,
            Error::Colours => 7,
            Error::TooLarge => 8,
            Error::TooMany => 9,
            Error::EmptyValue => 10,
            Error::NotSolvable => 11,
            Error::Replies => 12,
            Error::TooDeep => 13,
        }
    }
}

/// Why a command has no reply of its own.
#[derive(Debug, Drop)]
pub enum Fault {
    Refused(Error),
    Memory(AllocError),
}

impl From<AllocError> for Fault {
    ghost use Rattle.std.specs.Prelude.{◌≡◌};
    ghost use Rattle.bs_command.specs.declared.error.Fault.TheVariants.{Memory};

    ghost from_gives = { λ cause e. e ≡ Memory cause };

    fn from(cause: AllocError) -> Fault {
        Fault::Memory(cause)
    }
}
