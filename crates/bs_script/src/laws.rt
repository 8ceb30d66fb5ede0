//! Laws of the grammar.

ghost use Rattle.bs_script.specs.Laws.{RefusalRestsOnItsPrefix};

/// Where an input is refused at a line for another reason than a missing `end`, each input with the same lines up to
/// that one is refused there for that reason.
pub fn refusal_rests_on_its_prefix()
    ensures { RefusalRestsOnItsPrefix }
{}
