//! Laws of the made input.

ghost use Rattle.bs_make.specs.Laws.{MadeInputsAreScripts, HasMadeSessions, HasMadeCommands};

/// A made input is a script, whatever the seed: the reader refuses none.
pub fn made_inputs_are_scripts()
    ensures script { MadeInputsAreScripts }
    ensures sessions { HasMadeSessions }
    ensures commands { HasMadeCommands }
{}
