//! Laws of sheets: each function does nothing, and its contract is the law.

ghost use Rattle.bs_alone.specs.Sheet.{KeptLaw};
ghost use Rattle.bs_alone.specs.Fits.{FitsLaw};

/// A pair that is kept is found with its coefficient, and each other pair with what it had before.
pub fn keeping_changes_one_pair()
    ensures { KeptLaw }
{}

/// A sheet of no pairs fits each book; it fits after a written value is kept, and it fits the book when that grows.
pub fn fitting_is_kept()
    ensures { FitsLaw }
{}
