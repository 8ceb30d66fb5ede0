//! The tableaux that a session sees. A contract sees a `Seen` as their list, with their names.

ghost use Rattle.std.specs.Prelude.{◌≡◌, ◌<◌, ◌≤◌, length, option_map, IfSome};
ghost use Rattle.bs_script.specs.declared.TheConstants.{MAX_TABLES};
ghost use Rattle.bs_names.specs.Known.{plain, number_of};
ghost use Rattle.bs_names.specs.Names.{at};
ghost use Rattle.bs_names.specs.Known.{tables_seen};

use bs_script::Script;
use bs_tableau::Tableau;
use std::marker::Model;

/// The first tableaux of a script.
#[derive(Drop)]
pub struct Seen<'a> {
    script: &'a Script,
    above: usize,
}

impl<'a> Model for Seen<'a> {
    ghost use Rattle.std.specs.Prelude.{◌≤◌, length};
    ghost use Rattle.bs_names.specs.Known.{Tables};
    ghost use Rattle.bs_names.specs.Known.{tables_seen};

    ghost Value = { Tables };

    ghost view = { λ a. tables_seen a.script.now a.above };

    ghost invariant = { λ a. a.above ≤ length a.script.now.tables };
}

impl<'a> Seen<'a> {
    /// The tableaux of the script that stand above a session.
    pub fn new(script: &'a Script, above: usize) -> Seen<'a>
        requires { above ≤ length script.now.tables }
        ensures { result ≡ tables_seen script.now above }
    {
        Seen { script, above }
    }

    /// The tableaux alone.
    pub fn tables(&self) -> &'a [Tableau]
        ensures { result.now ≡ plain self.now }
    {
        &self.script.tables()[..self.above]
    }

    /// The tableau of this name, and its number. Goes down the script's search tree of names.
    pub fn find(&self, name: &[u8]) -> Option<(usize, &'a Tableau)>
        ensures table { option_map (λ found. found.1.now) result ≡ at name.now self.now }
        ensures number { option_map (λ found. found.0) result ≡ number_of name.now self.now }
        ensures below { IfSome result (λ found. found.0 < length self.now) }
        ensures few { IfSome result (λ found. found.0 < MAX_TABLES) }
    {
        let place = self.script.find_table(name)?;
        if place < self.above {
            Some((place, &self.script.tables()[place]))
        } else {
            None
        }
    }
}
