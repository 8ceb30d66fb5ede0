//! The weights of trees over each of some tableaux.

ghost use Rattle.std.specs.Prelude.{◌<◌, length, OnOk};

use bs_weight::Weights;
use std::alloc::{AllocError, Global};

/// The most tableaux of which one session remembers edge sums.
const REMEMBERED: usize = 64;

/// The weights over each of some tableaux, by their numbers.
#[derive(Drop)]
pub struct TableWeights {
    alloc: Global,
    each: Vec<Weights>,
}

impl TableWeights {
    /// No tableau is used yet. Takes no memory.
    pub fn new(alloc: Global) -> TableWeights {
        TableWeights {
            alloc,
            each: Vec::new(alloc),
        }
    }

    /// The weights over the tableau of this number.
    pub fn over(&mut self, number: usize) -> Result<&mut Weights, AllocError> {
        let place = number % REMEMBERED;
        self.reach(place)?;
        Ok(&mut self.each[place])
    }

    /// Makes a place for the weights of a tableau.
    fn reach(&mut self, place: usize) -> Result<(), AllocError>
        ensures { OnOk result (place < length self.new.each.items) }
    {
        'places: while self.each.len() <= place {
            self.each.push(Weights::new(self.alloc))?;
        }
        Ok(())
    }
}
