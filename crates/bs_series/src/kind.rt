//! What a series is made of, and why one is refused. Contracts see a `SeriesId` as its place in its book.
ghost use Rattle.std.specs.Prelude.{◌≡◌};

use bs_frac::Frac;
use std::alloc::AllocError;
use std::marker::Model;
use thiserror::Error;

/// The name of a series of a book.
#[derive(Clone, Copy, PartialEq, Eq, PartialOrd, Ord)]
pub struct SeriesId {
    place: usize,
}

impl Model for SeriesId {
    ghost use Rattle.std.specs.Prelude.{ℕ};

    ghost Value = { ℕ };

    ghost view = { λ a. a.place };

    ghost inverse = { λ v. record { place = v } };
}

impl SeriesId {
    pub(crate) fn of_place(place: usize) -> SeriesId
        ensures { result ≡ place }
    {
        SeriesId { place }
    }

    /// The place in the book.
    pub fn place(&self) -> usize
        ensures { result ≡ self.now }
    {
        self.place
    }
}

/// A series, its operands named by their ids.
#[derive(Clone, Copy, PartialEq, Eq)]
pub enum Kind {
    /// The exact flow.
    Exact { colours: u8 },
    /// The identity.
    Identity { colours: u8 },
    /// The average vector field method.
    Average { colours: u8 },
    /// The Runge-Kutta method of a tableau, by its number in the list of tableaux.
    Method { table: u16 },
    /// The composition: the first series, then the second.
    Compose { first: SeriesId, second: SeriesId },
    /// The inverse under composition.
    Inverse { of: SeriesId },
    /// The adjoint.
    Adjoint { of: SeriesId },
    /// The inner series put into the outer one.
    Substitute { inner: SeriesId, outer: SeriesId },
    /// The series of the modified equation.
    Modified { of: SeriesId },
    /// The series of the modifying integrator.
    Modifying { of: SeriesId },
    /// The series with the step size multiplied by a factor.
    Scale { of: SeriesId, by: Frac },
}

/// Why a series is not made. Tested in this order.
#[derive(Clone, Copy, PartialEq, Eq, Debug, Error)]
pub enum SeriesFault {
    /// Composed series differ in their number of colours, or an outer series or the series of a modifying integrator has
    /// more than one.
    #[error("colours differ")]
    ColoursDiffer,
    /// An empty value is not the one that the operation needs.
    #[error("empty value")]
    EmptyValue,
    /// The series of a modifying integrator is 0 at the leaf.
    #[error("not solvable")]
    NotSolvable,
    /// The expression written out is deeper than MAX_DEPTH or larger than MAX_SIZE.
    #[error("too deep")]
    TooDeep,
    /// Memory ran out.
    #[error("out of memory")]
    Memory(AllocError),
}
