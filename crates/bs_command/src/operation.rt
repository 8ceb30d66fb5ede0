//! The kinds of series that a session makes.

ghost use Rattle.std.specs.Prelude.{◌≡◌};
ghost use Rattle.bs_command.specs.Operations.{operation_of};

/// How a series is made.
#[derive(Clone, Copy, Debug, PartialEq, Eq)]
pub enum Operation {
    Exact,
    Identity,
    Average,
    Method,
    Compose,
    Inverse,
    Adjoint,
    Substitute,
    Modified,
    Modifying,
    Scale,
}

impl Operation {
    /// The operation of a word.
    pub(crate) fn read(word: &[u8]) -> Option<Operation>
        ensures { result ≡ operation_of word.now }
    {
        if word == b"exact".as_slice() {
            Some(Operation::Exact)
        } else if word == b"identity".as_slice() {
            Some(Operation::Identity)
        } else if word == b"average".as_slice() {
            Some(Operation::Average)
        } else if word == b"method".as_slice() {
            Some(Operation::Method)
        } else if word == b"compose".as_slice() {
            Some(Operation::Compose)
        } else if word == b"inverse".as_slice() {
            Some(Operation::Inverse)
        } else if word == b"adjoint".as_slice() {
            Some(Operation::Adjoint)
        } else if word == b"substitute".as_slice() {
            Some(Operation::Substitute)
        } else if word == b"modified".as_slice() {
            Some(Operation::Modified)
        } else if word == b"modifying".as_slice() {
            Some(Operation::Modifying)
        } else if word == b"scale".as_slice() {
            Some(Operation::Scale)
        } else {
            None
        }
    }
}
