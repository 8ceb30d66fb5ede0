//! The first word of a command.

ghost use Rattle.std.specs.Prelude.{◌≡◌};
ghost use Rattle.bs_command.specs.Verbs.{verb_of};

/// What a command is to do.
#[derive(Clone, Copy, Debug, PartialEq, Eq)]
pub enum Verb {
    Tree,
    Drop,
    Same,
    Info,
    Weight,
    Trees,
    Conditions,
    Order,
    Split,
    Partition,
    Series,
    Coeff,
    Print,
    Equal,
}

impl Verb {
    /// The verb of a word.
    pub(crate) fn read(word: &[u8]) -> Option<Verb>
        ensures { result ≡ verb_of word.now }
    {
        if word == b"tree".as_slice() {
            Some(Verb::Tree)
        } else if word == b"drop".as_slice() {
            Some(Verb::Drop)
        } else if word == b"same".as_slice() {
            Some(Verb::Same)
        } else if word == b"info".as_slice() {
            Some(Verb::Info)
        } else if word == b"weight".as_slice() {
            Some(Verb::Weight)
        } else if word == b"trees".as_slice() {
            Some(Verb::Trees)
        } else if word == b"conditions".as_slice() {
            Some(Verb::Conditions)
        } else if word == b"order".as_slice() {
            Some(Verb::Order)
        } else if word == b"split".as_slice() {
            Some(Verb::Split)
        } else if word == b"partition".as_slice() {
            Some(Verb::Partition)
        } else if word == b"series".as_slice() {
            Some(Verb::Series)
        } else if word == b"coeff".as_slice() {
            Some(Verb::Coeff)
        } else if word == b"print".as_slice() {
            Some(Verb::Print)
        } else if word == b"equal".as_slice() {
            Some(Verb::Equal)
        } else {
            None
        }
    }
}
