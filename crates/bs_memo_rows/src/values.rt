//! The coefficients of the first method of a list of tableaux, and their keys.
ghost use Rattle.std.specs.Prelude.{◌≡◌, ◌<◌, length, IfSome, IfOk};
ghost use Rattle.bs_tableau.specs.WrittenWeight.{written_weight};
ghost use Rattle.bs_frac.specs.Written.{checked};
ghost use Rattle.bs_tree.specs.Code.{tree_of};
ghost use Rattle.bs_series.specs.Value.{table_at};
ghost use Rattle.bs_memo_rows.specs.Methods.{IsOfMethod};

use bs_core::Name;
use bs_frac::Coef;
use bs_memo::MemoKey;
use bs_series::{Book, Kind};
use bs_tableau::methods::EULER;
use bs_tableau::{Builder, Tableau};
use bs_tree::Code;
use bs_weight::weight;
use std::alloc::Global;
use std::test::Fail;

/// The tableau of Euler's method.
pub(crate) fn euler(alloc: Global) -> Result<Vec<Tableau>, Fail> {
    let mut builder = Builder::new(alloc, 1, 1)?;
    for line in EULER.lines {
        if builder.complete() {
            return Err("too many lines")?;
        }
        if builder.line(line.as_bytes()).is_err() {
            return Err("a line is refused")?;
        }
    }
    if !builder.complete() {
        return Err("too few lines")?;
    }
    let mut tables = Vec::new(alloc);
    tables.push(builder.finish())?;
    Ok(tables)
}

/// The key of the first method at the tree of a name.
pub(crate) fn method_key(alloc: Global, tables: &[Tableau], name: Name) -> Result<MemoKey, Fail>
    ensures { IfOk result (λ key. IsOfMethod key.series) }
{
    if tables.is_empty() {
        return Err("no tableau")?;
    }
    let mut book = Book::new(alloc);
    match book.make(tables, Kind::Method { table: 0 }) {
        Ok(id) => Ok(MemoKey::new(alloc, &book, id, name)?),
        Err(_) => Err("no series")?,
    }
}

/// The coefficient of the first method at a tree. Nothing where it has no such colours.
pub(crate) fn value_at(tables: &[Tableau], code: &Code) -> Option<Coef>
    ensures { IfSome result (λ v. v ≡ written_weight checked (table_at tables.now 0) (tree_of code.now)) }
{
    if tables.is_empty() {
        return None;
    }
    let table = &tables[0];
    if !code.has_colours_below(table.colours()) {
        return None;
    }
    Some(weight(table, code))
}
