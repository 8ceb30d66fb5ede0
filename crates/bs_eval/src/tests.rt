//! Values worked out elsewhere.

ghost use Rattle.std.specs.Prelude.{◌≡◌, ◌<◌, List, [], length, IfSome, IfOk, OnOk};
ghost use Rattle.std.specs.List.{AllByRecursion};
ghost use Rattle.bs_tableau.specs.Table.{Table};
ghost use Rattle.bs_series.specs.Series.{Series};
ghost use Rattle.bs_series.specs.SeriesCode.{written_at};
ghost use Rattle.bs_series.specs.Accepted.{Suits};
ghost use Rattle.bs_series.specs.Expressions.{series_at};

use crate::{Ask, Eval, Memory};
use bs_frac::{Coef, Frac};
use bs_series::{Book, Kind, SeriesFault, SeriesId};
use bs_steps::Steps;
use bs_tableau::methods::{Block, EULER, MIDPOINT};
use bs_tableau::{Builder, MAX_COLOURS, MAX_STAGES, Tableau};
use bs_tree::Code;
use std::alloc::{AllocError, Global};
use std::marker::Brand;
use std::sync::ledger::{Blank, Ledger};
use std::test::Fail;

/// The tableau of a block.
fn built(alloc: Global, block: Block) -> Result<Tableau, Fail> {
    if block.stages == 0
        || block.stages > MAX_STAGES
        || block.colours == 0
        || block.colours > MAX_COLOURS
    {
        return Err("no such tableau")?;
    }
    let mut builder = Builder::new(alloc, block.stages, block.colours)?;
    for line in block.lines {
        if builder.complete() {
            return Err("too many lines")?;
        }
        if builder.line(line.as_bytes()).is_err() {
            return Err("a line is refused")?;
        }
    }
    if !builder.complete() {
        return Err("too few lines")?;
    }
    Ok(builder.finish())
}

fn fraction(negative: bool, num: u128, den: u128) -> Result<Coef, Fail> {
    if den == 0 {
        return Err("no fraction")?;
    }
    Ok(Coef::of(Frac::new(negative, num, den)))
}

fn cherry() -> Result<Code, Fail> {
    Ok(Code::of_pairs(&[(1, 0), (2, 0), (2, 0)]).ok_or("no level sequence")?)
}

fn chain() -> Result<Code, Fail> {
    Ok(Code::of_pairs(&[(1, 0), (2, 0), (3, 0)]).ok_or("no level sequence")?)
}

fn two_nodes() -> Result<Code, Fail> {
    Ok(Code::of_pairs(&[(1, 0), (2, 0)]).ok_or("no level sequence")?)
}

/// A value that the machine handed out.
#[derive(Clone, Copy)]
struct Remembered {
    series: SeriesId,
    code: Code,
    coef: Coef,
}

/// The remembered value of a series at a tree.
fn recalled(kept: &[Remembered], series: SeriesId, code: &Code) -> Option<Coef>
    ensures { (tables : List Table) (es : List Series) → AllByRecursion (λ value. value.coef ≡ written_at tables (series_at es value.series) value.code) kept.now → IfSome result (λ coef. coef ≡ written_at tables (series_at es series) code.now) }
{
    'kept: for value in kept {
        if value.series == series && value.code == *code {
            return Some(value.coef);
        }
    }
    None
}

/// Remembers a value where there is room.
fn remember(
    kept: &mut Vec<Remembered>,
    room: usize,
    series: SeriesId,
    code: Code,
    coef: Coef,
) -> Result<(), AllocError>
    ensures { (tables : List Table) (es : List Series) → coef ≡ written_at tables (series_at es series) code → AllByRecursion (λ value. value.coef ≡ written_at tables (series_at es value.series) value.code) kept.old.items → OnOk result (AllByRecursion (λ value. value.coef ≡ written_at tables (series_at es value.series) value.code) kept.new.items) }
{
    if kept.len() < room {
        kept.push(Remembered { series, code, coef })?;
    }
    Ok(())
}

/// The value at the tree, with room for a few remembered values.
fn value(
    alloc: Global,
    book: &Book,
    tables: &[Tableau],
    series: SeriesId,
    code: Code,
) -> Result<Coef, Fail>
    requires known { series < length book.now }
    requires suits { Suits tables.now book.now }
{
    evaluated::<Brand>(alloc, book, tables, series, code, 16, Blank::new(1))
}

/// The value at the tree, with nothing remembered.
fn value_alone(
    alloc: Global,
    book: &Book,
    tables: &[Tableau],
    series: SeriesId,
    code: Code,
) -> Result<Coef, Fail>
    requires known { series < length book.now }
    requires suits { Suits tables.now book.now }
{
    evaluated::<Brand>(alloc, book, tables, series, code, 0, Blank::new(1))
}

fn evaluated<L: Ledger>(
    alloc: Global,
    book: &Book,
    tables: &[Tableau],
    series: SeriesId,
    code: Code,
    room: usize,
    blank: Blank,
) -> Result<Coef, Fail>
    requires name { blank.name ≡ L.name }
    requires parts { blank.parts ≡ L.parts }
    requires some { 0 < blank.parts }
    requires known { series < length book.now }
    requires suits { Suits tables.now book.now }
{
    if !code.has_colours_below(usize::from(book.colours(series))) {
        return Err("colours differ")?;
    }
    let mut steps = Steps::<L>::new(blank);
    let mut memory = Memory::new(alloc);
    let mut eval = Eval::start(alloc, series, code);
    let mut kept = Vec::new(alloc);
    let mut found = None;
    'questions: for _ in 0..10000 {
        match eval.next(book, tables, &mut memory, found, &mut steps)? {
            Ask::Look { series, code } => found = recalled(&kept, series, &code),
            Ask::Keep { series, code, coef } => {
                remember(&mut kept, room, series, code, coef)?;
                found = None;
            }
            Ask::Done { coef } => return Ok(coef),
        }
    }
    Err("no answer")?
}

/// Whether the series has these values at the leaf, the tree of two nodes, the chain and the cherry, with some values
/// remembered and with none.
fn has_values(
    alloc: Global,
    book: &Book,
    tables: &[Tableau],
    series: SeriesId,
    wanted: &[Coef; 4],
) -> Result<bool, Fail>
    requires known { series < length book.now }
    requires suits { Suits tables.now book.now }
{
    let leaf = Code::leaf(0);
    let two = two_nodes()?;
    let chain = chain()?;
    let cherry = cherry()?;
    Ok(
        value(alloc, book, tables, series, leaf)? == wanted[0]
            && value(alloc, book, tables, series, two)? == wanted[1]
            && value(alloc, book, tables, series, chain)? == wanted[2]
            && value(alloc, book, tables, series, cherry)? == wanted[3]
            && value_alone(alloc, book, tables, series, leaf)? == wanted[0]
            && value_alone(alloc, book, tables, series, two)? == wanted[1]
            && value_alone(alloc, book, tables, series, chain)? == wanted[2]
            && value_alone(alloc, book, tables, series, cherry)? == wanted[3],
    )
}

/// The composition of a series with itself.
fn doubled(book: &mut Book, id: SeriesId) -> Result<SeriesId, SeriesFault>
    requires id { id < length book.old }
    requires suits { Suits [] book.old }
    ensures id { IfOk result (λ twice. twice < length book.new) }
    ensures suits { Suits [] book.new }
{
    book.make(
        &[],
        Kind::Compose {
            first: id,
            second: id,
        },
    )
}

#[test]
fn the_exact_flow_inverted(rt: HostRuntime) -> Result<(), Fail> {
    let alloc = rt.alloc();
    let mut book = Book::new(alloc);
    let flow = book.make(&[], Kind::Exact { colours: 1 })?;
    let back = book.make(&[], Kind::Inverse { of: flow })?;
    assert!(rt; value(alloc, &book, &[], back, cherry()?)? == fraction(true, 1, 3)?);
    assert!(rt; value(alloc, &book, &[], back, chain()?)? == fraction(true, 1, 6)?);
    assert!(rt; value(alloc, &book, &[], flow, chain()?)? == fraction(false, 1, 6)?);
    Ok(())
}

#[test]
fn two_half_steps_of_euler(rt: HostRuntime) -> Result<(), Fail> {
    let alloc = rt.alloc();
    let mut tables = Vec::new(alloc);
    tables.push(built(alloc, EULER)?)?;
    let mut book = Book::new(alloc);
    let euler = book.make(&tables, Kind::Method { table: 0 })?;
    let half = Frac::new(false, 1, 2).map_err(|_| "a half")?;
    let first = book.make(
        &tables,
        Kind::Scale {
            of: euler,
            by: half,
        },
    )?;
    let both = book.make(
        &tables,
        Kind::Compose {
            first,
            second: first,
        },
    )?;
    assert!(rt; value(alloc, &book, &tables, both, Code::leaf(0))? == fraction(false, 1, 1)?);
    assert!(rt; value(alloc, &book, &tables, both, cherry()?)? == fraction(false, 1, 8)?);
    assert!(rt; value(alloc, &book, &tables, both, chain()?)? == fraction(false, 0, 1)?);
    Ok(())
}

#[test]
fn the_inverse_of_euler(rt: HostRuntime) -> Result<(), Fail> {
    let alloc = rt.alloc();
    let mut tables = Vec::new(alloc);
    tables.push(built(alloc, EULER)?)?;
    let mut book = Book::new(alloc);
    let euler = book.make(&tables, Kind::Method { table: 0 })?;
    let back = book.make(&tables, Kind::Inverse { of: euler })?;
    let one = fraction(false, 1, 1)?;
    let less = fraction(true, 1, 1)?;
    assert!(rt; has_values(alloc, &book, &tables, back, &[less, one, less, less])?);
    Ok(())
}

#[test]
fn two_steps_of_euler(rt: HostRuntime) -> Result<(), Fail> {
    let alloc = rt.alloc();
    let mut tables = Vec::new(alloc);
    tables.push(built(alloc, EULER)?)?;
    let mut book = Book::new(alloc);
    let euler = book.make(&tables, Kind::Method { table: 0 })?;
    let twice = book.make(
        &tables,
        Kind::Compose {
            first: euler,
            second: euler,
        },
    )?;
    let none = fraction(false, 0, 1)?;
    let one = fraction(false, 1, 1)?;
    let two = fraction(false, 2, 1)?;
    assert!(rt; has_values(alloc, &book, &tables, twice, &[two, one, none, one])?);
    Ok(())
}

#[test]
fn the_exact_flow_before_and_after_euler(rt: HostRuntime) -> Result<(), Fail> {
    let alloc = rt.alloc();
    let mut tables = Vec::new(alloc);
    tables.push(built(alloc, EULER)?)?;
    let mut book = Book::new(alloc);
    let euler = book.make(&tables, Kind::Method { table: 0 })?;
    let flow = book.make(&tables, Kind::Exact { colours: 1 })?;
    let after = book.make(
        &tables,
        Kind::Compose {
            first: euler,
            second: flow,
        },
    )?;
    let before = book.make(
        &tables,
        Kind::Compose {
            first: flow,
            second: euler,
        },
    )?;
    assert!(rt; value(alloc, &book, &tables, after, cherry()?)? == fraction(false, 7, 3)?);
    assert!(rt; value(alloc, &book, &tables, before, cherry()?)? == fraction(false, 4, 3)?);
    Ok(())
}

#[test]
fn the_modified_equation_of_euler(rt: HostRuntime) -> Result<(), Fail> {
    let alloc = rt.alloc();
    let mut tables = Vec::new(alloc);
    tables.push(built(alloc, EULER)?)?;
    let mut book = Book::new(alloc);
    let euler = book.make(&tables, Kind::Method { table: 0 })?;
    let flow = book.make(&tables, Kind::Exact { colours: 1 })?;
    let field = book.make(&tables, Kind::Modified { of: euler })?;
    let again = book.make(
        &tables,
        Kind::Substitute {
            inner: field,
            outer: flow,
        },
    )?;
    let wanted = [
        fraction(false, 1, 1)?,
        fraction(true, 1, 2)?,
        fraction(false, 1, 3)?,
        fraction(false, 1, 6)?,
    ];
    assert!(rt; has_values(alloc, &book, &tables, field, &wanted)?);
    assert!(rt; value(alloc, &book, &tables, again, chain()?)? == fraction(false, 0, 1)?);
    Ok(())
}

#[test]
fn the_modifying_integrator_of_euler(rt: HostRuntime) -> Result<(), Fail> {
    let alloc = rt.alloc();
    let mut tables = Vec::new(alloc);
    tables.push(built(alloc, EULER)?)?;
    let mut book = Book::new(alloc);
    let euler = book.make(&tables, Kind::Method { table: 0 })?;
    let integrator = book.make(&tables, Kind::Modifying { of: euler })?;
    let exact = book.make(
        &tables,
        Kind::Substitute {
            inner: integrator,
            outer: euler,
        },
    )?;
    assert!(rt; value(alloc, &book, &tables, integrator, cherry()?)? == fraction(false, 1, 3)?);
    assert!(rt; value(alloc, &book, &tables, exact, chain()?)? == fraction(false, 1, 6)?);
    Ok(())
}

#[test]
fn the_midpoint_rule_modified(rt: HostRuntime) -> Result<(), Fail> {
    let alloc = rt.alloc();
    let mut tables = Vec::new(alloc);
    tables.push(built(alloc, MIDPOINT)?)?;
    let mut book = Book::new(alloc);
    let midpoint = book.make(&tables, Kind::Method { table: 0 })?;
    let field = book.make(&tables, Kind::Modified { of: midpoint })?;
    let integrator = book.make(&tables, Kind::Modifying { of: midpoint })?;
    let one = fraction(false, 1, 1)?;
    let none = fraction(false, 0, 1)?;
    let twelfth = fraction(false, 1, 12)?;
    let less = fraction(true, 1, 12)?;
    assert!(rt; has_values(alloc, &book, &tables, field, &[one, none, twelfth, less])?);
    assert!(rt;
        has_values(
            alloc,
            &book,
            &tables,
            integrator,
            &[one, none, less, twelfth]
        )?
    );
    Ok(())
}

#[test]
fn the_exact_flow_of_32_steps(rt: HostRuntime) -> Result<(), Fail> {
    let alloc = rt.alloc();
    let mut book = Book::new(alloc);
    let one = book.make(&[], Kind::Exact { colours: 1 })?;
    let two = doubled(&mut book, one)?;
    let four = doubled(&mut book, two)?;
    let eight = doubled(&mut book, four)?;
    let sixteen = doubled(&mut book, eight)?;
    let thirty_two = doubled(&mut book, sixteen)?;
    let wanted = fraction(false, 512, 1)?;
    assert!(rt; value(alloc, &book, &[], thirty_two, two_nodes()?)? == wanted);
    assert!(rt; value_alone(alloc, &book, &[], thirty_two, two_nodes()?)? == wanted);
    Ok(())
}

#[test]
fn the_adjoint_of_euler_is_the_implicit_one(rt: HostRuntime) -> Result<(), Fail> {
    let alloc = rt.alloc();
    let mut tables = Vec::new(alloc);
    tables.push(built(alloc, EULER)?)?;
    let mut book = Book::new(alloc);
    let euler = book.make(&tables, Kind::Method { table: 0 })?;
    let implicit = book.make(&tables, Kind::Adjoint { of: euler })?;
    assert!(rt; value(alloc, &book, &tables, implicit, cherry()?)? == fraction(false, 1, 1)?);
    assert!(rt; value(alloc, &book, &tables, implicit, chain()?)? == fraction(false, 1, 1)?);
    Ok(())
}

#[test]
fn the_average_and_the_identity(rt: HostRuntime) -> Result<(), Fail> {
    let alloc = rt.alloc();
    let mut book = Book::new(alloc);
    let average = book.make(&[], Kind::Average { colours: 1 })?;
    let identity = book.make(&[], Kind::Identity { colours: 1 })?;
    let both = book.make(
        &[],
        Kind::Compose {
            first: average,
            second: identity,
        },
    )?;
    let wanted = [
        fraction(false, 1, 1)?,
        fraction(false, 1, 2)?,
        fraction(false, 1, 4)?,
        fraction(false, 1, 3)?,
    ];
    assert!(rt; has_values(alloc, &book, &[], average, &wanted)?);
    assert!(rt; value(alloc, &book, &[], both, chain()?)? == fraction(false, 1, 4)?);
    assert!(rt; value(alloc, &book, &[], identity, chain()?)? == fraction(false, 0, 1)?);
    Ok(())
}
