//! A session's remembered coefficients. Contracts see a `Sheet` as a finite map from pairs of a series and a code.
ghost use Rattle.std.specs.Prelude.{◌≡◌, List, IfSome, OnOk, OnErr};
ghost use Rattle.bs_tableau.specs.Table.{Table};
ghost use Rattle.bs_series.specs.Series.{Series};
ghost use Rattle.bs_alone.specs.Sheet.{no_pairs, kept, kept_with};
ghost use Rattle.bs_alone.specs.Fits.{IsWritten, Fits};

use crate::packed::pack;
use bs_frac::Coef;
use bs_series::SeriesId;
use bs_tree::Code;
use std::alloc::{AllocError, Global};
use std::collections::BTreeMap;
use std::marker::Model;

/// Coefficients of series at trees, each under its series and the number of its code.
#[derive(Drop)]
pub struct Sheet {
    pairs: BTreeMap<(SeriesId, u128), Coef>,
}

impl Model for Sheet {
    ghost use Rattle.bs_alone.specs.Sheet as sheet;
    ghost use Rattle.bs_alone.specs.Packed.{AreKeys, sheet_of};

    ghost Value = { sheet.Sheet };

    ghost coded = { sheet.sheet_code };

    ghost view = { λ a. sheet_of a.pairs.entries };

    ghost invariant = { λ a. AreKeys a.pairs.entries };
}

impl Sheet {
    /// No pairs. Takes no memory.
    pub fn new(alloc: Global) -> Sheet
        ensures empty { result ≡ no_pairs }
        ensures fits { (tables : List Table) (es : List Series) → Fits tables es result }
    {
        Sheet {
            pairs: BTreeMap::new(alloc),
        }
    }

    /// The coefficient of the pair; `None` exactly where the pair is not in the sheet. Takes no memory.
    pub fn look(&self, series: SeriesId, code: &Code) -> Option<Coef>
        ensures value { result ≡ kept self.now series code.now }
        ensures fits { (tables : List Table) (es : List Series) → Fits tables es self.now → IfSome result (IsWritten tables es series code.now) }
    {
        self.pairs.get(&(series, pack(code))).copied()
    }

    /// The pair has this coefficient from now on, and each other pair what it had. Where memory is wanted, nothing has changed.
    pub fn keep(&mut self, series: SeriesId, code: Code, coef: Coef) -> Result<(), AllocError>
        ensures kept { OnOk result (self.new ≡ kept_with self.old series code coef) }
        ensures unchanged { OnErr result (self.new ≡ self.old) }
        ensures fits { (tables : List Table) (es : List Series) → Fits tables es self.old → IsWritten tables es series code coef → Fits tables es self.new }
    {
        self.pairs.insert((series, pack(&code)), coef)?;
        Ok(())
    }
}
