//! What a session is answered.

use bs_frac::Coef;

/// What a session is answered.
#[derive(Clone, Copy)]
pub enum Answer {
    /// It is done; also where nothing was asked yet.
    Go,
    /// The two trees are isomorphic.
    Yes,
    /// They are not.
    No,
    /// The value that was looked up.
    Found(Coef),
    /// It is not remembered.
    Missing,
}
