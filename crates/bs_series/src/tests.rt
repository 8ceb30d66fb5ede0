//! What is refused, in its order; ids, empty values, colours and keys.
ghost use Rattle.std.specs.Prelude.{◌<◌, [], length, IfOk};
ghost use Rattle.bs_series.specs.Accepted.{Suits};
ghost use Rattle.bs_series.specs.Expressions.{Extends, OperandsIn, TableIn, HasColours};

use crate::{Book, Kind, SeriesFault, SeriesId};
use bs_frac::Frac;
use bs_tableau::methods::{Block, EULER, IMEX, MIDPOINT};
use bs_tableau::{Builder, MAX_COLOURS, MAX_STAGES, Tableau};
use std::alloc::Global;
use std::test::Fail;

/// The tableau of a block.
fn built(alloc: Global, block: Block) -> Result<Tableau, Fail> {
    if block.stages == 0
        || block.stages > MAX_STAGES
        || block.colours == 0
        || block.colours > MAX_COLOURS
    {
        return Err("no such tableau")?;
    }
    let mut builder = Builder::new(alloc, block.stages, block.colours)?;
    for line in block.lines {
        if builder.complete() {
            return Err("too many lines")?;
        }
        if builder.line(line.as_bytes()).is_err() {
            return Err("a line is refused")?;
        }
    }
    if !builder.complete() {
        return Err("too few lines")?;
    }
    Ok(builder.finish())
}

/// Whether making the series is refused with this fault.
fn refuses(book: &mut Book, tables: &[Tableau], kind: Kind, fault: SeriesFault) -> bool
    requires operands { OperandsIn (length book.old) kind }
    requires table { TableIn (length tables.now) kind }
    requires colours { HasColours kind }
    requires suits { Suits tables.now book.old }
    ensures ids_stay { Extends book.old book.new }
    ensures suits { Suits tables.now book.new }
{
    match book.make(tables, kind) {
        Ok(_) => false,
        Err(found) => found == fault,
    }
}

#[test]
fn an_expression_has_one_id(rt: HostRuntime) -> Result<(), Fail> {
    let mut book = Book::new(rt.alloc());
    let a = book.make(&[], Kind::Exact { colours: 1 })?;
    let b = book.make(&[], Kind::Identity { colours: 1 })?;
    let first = book.make(
        &[],
        Kind::Compose {
            first: a,
            second: b,
        },
    )?;
    let other_way = book.make(
        &[],
        Kind::Compose {
            first: b,
            second: a,
        },
    )?;
    let again = book.make(
        &[],
        Kind::Compose {
            first: a,
            second: b,
        },
    )?;
    let two_colours = book.make(&[], Kind::Exact { colours: 2 })?;
    assert!(rt; again == first);
    assert!(rt; other_way != first);
    assert!(rt; two_colours != a);
    assert!(rt;
        book.kind(again)
            == Kind::Compose {
                first: a,
                second: b
            }
    );
    Ok(())
}

#[test]
fn colours_come_before_the_empty_value(rt: HostRuntime) -> Result<(), Fail> {
    let mut book = Book::new(rt.alloc());
    let flow = book.make(&[], Kind::Exact { colours: 1 })?;
    let two = book.make(&[], Kind::Exact { colours: 2 })?;
    let field = book.make(&[], Kind::Modified { of: two })?;
    let differ = Kind::Compose {
        first: field,
        second: flow,
    };
    assert!(rt; refuses(&mut book, &[], differ, SeriesFault::ColoursDiffer));
    let outer = Kind::Substitute {
        inner: flow,
        outer: two,
    };
    assert!(rt; refuses(&mut book, &[], outer, SeriesFault::ColoursDiffer));
    let modifying = Kind::Modifying { of: field };
    assert!(rt; refuses(&mut book, &[], modifying, SeriesFault::ColoursDiffer));
    Ok(())
}

#[test]
fn empty_values_are_tested(rt: HostRuntime) -> Result<(), Fail> {
    let mut book = Book::new(rt.alloc());
    let flow = book.make(&[], Kind::Exact { colours: 1 })?;
    let field = book.make(&[], Kind::Modified { of: flow })?;
    assert!(rt;
        refuses(
            &mut book,
            &[],
            Kind::Inverse { of: field },
            SeriesFault::EmptyValue
        )
    );
    assert!(rt;
        refuses(
            &mut book,
            &[],
            Kind::Adjoint { of: field },
            SeriesFault::EmptyValue
        )
    );
    assert!(rt;
        refuses(
            &mut book,
            &[],
            Kind::Modified { of: field },
            SeriesFault::EmptyValue
        )
    );
    assert!(rt;
        refuses(
            &mut book,
            &[],
            Kind::Modifying { of: field },
            SeriesFault::EmptyValue
        )
    );
    let outer = Kind::Substitute {
        inner: flow,
        outer: flow,
    };
    assert!(rt; refuses(&mut book, &[], outer, SeriesFault::EmptyValue));
    let first = Kind::Compose {
        first: field,
        second: flow,
    };
    assert!(rt; refuses(&mut book, &[], first, SeriesFault::EmptyValue));
    let second = book.make(
        &[],
        Kind::Compose {
            first: flow,
            second: field,
        },
    )?;
    assert!(rt; book.empty_value(second).is_zero());
    let flow_again = book.make(
        &[],
        Kind::Substitute {
            inner: field,
            outer: flow,
        },
    )?;
    assert!(rt; book.empty_value(flow_again) == Frac::whole(1));
    Ok(())
}

#[test]
fn the_identity_has_no_modifying_integrator(rt: HostRuntime) -> Result<(), Fail> {
    let mut book = Book::new(rt.alloc());
    let flow = book.make(&[], Kind::Exact { colours: 1 })?;
    let identity = book.make(&[], Kind::Identity { colours: 1 })?;
    assert!(rt;
        refuses(
            &mut book,
            &[],
            Kind::Modifying { of: identity },
            SeriesFault::NotSolvable
        )
    );
    let back = book.make(&[], Kind::Inverse { of: flow })?;
    let there_and_back = book.make(
        &[],
        Kind::Compose {
            first: flow,
            second: back,
        },
    )?;
    assert!(rt;
        refuses(
            &mut book,
            &[],
            Kind::Modifying { of: there_and_back },
            SeriesFault::NotSolvable
        )
    );
    let adjoint = book.make(&[], Kind::Adjoint { of: flow })?;
    let two_steps = book.make(
        &[],
        Kind::Compose {
            first: flow,
            second: adjoint,
        },
    )?;
    let solved = book.make(&[], Kind::Modifying { of: two_steps })?;
    assert!(rt; book.empty_value(solved).is_zero());
    let none = book.make(
        &[],
        Kind::Scale {
            of: flow,
            by: Frac::whole(0),
        },
    )?;
    assert!(rt;
        refuses(
            &mut book,
            &[],
            Kind::Modifying { of: none },
            SeriesFault::NotSolvable
        )
    );
    Ok(())
}

#[test]
fn methods_have_the_colours_of_their_tableaux(rt: HostRuntime) -> Result<(), Fail> {
    let mut tables = Vec::new(rt.alloc());
    tables.push(built(rt.alloc(), EULER)?)?;
    tables.push(built(rt.alloc(), IMEX)?)?;
    tables.push(built(rt.alloc(), MIDPOINT)?)?;
    if tables.len() != 3 {
        return Err("three tableaux")?;
    }
    let mut book = Book::new(rt.alloc());
    let euler = book.make(&tables, Kind::Method { table: 0 })?;
    let imex = book.make(&tables, Kind::Method { table: 1 })?;
    let midpoint = book.make(&tables, Kind::Method { table: 2 })?;
    assert!(rt; book.colours(euler) == 1);
    assert!(rt; book.colours(imex) == 2);
    let field = book.make(&tables, Kind::Modified { of: imex })?;
    assert!(rt; book.colours(field) == 2);
    assert!(rt; book.empty_value(field).is_zero());
    assert!(rt;
        refuses(
            &mut book,
            &tables,
            Kind::Modifying { of: imex },
            SeriesFault::ColoursDiffer
        )
    );
    let integrator = book.make(&tables, Kind::Modifying { of: midpoint })?;
    assert!(rt; book.kind(integrator) == Kind::Modifying { of: midpoint });
    Ok(())
}

/// The composition of a series with itself.
fn doubled(book: &mut Book, id: SeriesId) -> Result<SeriesId, SeriesFault>
    requires id { id < length book.old }
    requires suits { Suits [] book.old }
    ensures id { IfOk result (λ twice. twice < length book.new) }
    ensures ids_stay { Extends book.old book.new }
    ensures suits { Suits [] book.new }
{
    book.make(
        &[],
        Kind::Compose {
            first: id,
            second: id,
        },
    )
}

#[test]
fn a_composition_of_127_nodes_is_too_deep(rt: HostRuntime) -> Result<(), Fail> {
    let mut book = Book::new(rt.alloc());
    let one = book.make(&[], Kind::Exact { colours: 1 })?;
    let two = doubled(&mut book, one)?;
    let four = doubled(&mut book, two)?;
    let eight = doubled(&mut book, four)?;
    let sixteen = doubled(&mut book, eight)?;
    let thirty_two = doubled(&mut book, sixteen)?;
    assert!(rt;
        book.kind(thirty_two)
            == Kind::Compose {
                first: sixteen,
                second: sixteen
            }
    );
    let sixty_four = Kind::Compose {
        first: thirty_two,
        second: thirty_two,
    };
    assert!(rt; refuses(&mut book, &[], sixty_four, SeriesFault::TooDeep));
    Ok(())
}

/// The inverse of a series.
fn inverted(book: &mut Book, id: SeriesId) -> Result<SeriesId, SeriesFault>
    requires id { id < length book.old }
    requires suits { Suits [] book.old }
    ensures id { IfOk result (λ back. back < length book.new) }
    ensures suits { Suits [] book.new }
{
    book.make(&[], Kind::Inverse { of: id })
}

/// The inverse of the inverse, five deep.
fn inverted_five_times(book: &mut Book, id: SeriesId) -> Result<SeriesId, SeriesFault>
    requires id { id < length book.old }
    requires suits { Suits [] book.old }
    ensures id { IfOk result (λ back. back < length book.new) }
    ensures suits { Suits [] book.new }
{
    let one = inverted(book, id)?;
    let two = inverted(book, one)?;
    let three = inverted(book, two)?;
    let four = inverted(book, three)?;
    inverted(book, four)
}

#[test]
fn sixteen_inverses_are_too_deep(rt: HostRuntime) -> Result<(), Fail> {
    let mut book = Book::new(rt.alloc());
    let flow = book.make(&[], Kind::Exact { colours: 1 })?;
    let five = inverted_five_times(&mut book, flow)?;
    let ten = inverted_five_times(&mut book, five)?;
    let fifteen = inverted_five_times(&mut book, ten)?;
    assert!(rt;
        refuses(
            &mut book,
            &[],
            Kind::Inverse { of: fifteen },
            SeriesFault::TooDeep
        )
    );
    Ok(())
}

#[test]
fn keys_tell_expressions_apart(rt: HostRuntime) -> Result<(), Fail> {
    let mut book = Book::new(rt.alloc());
    let a = book.make(&[], Kind::Exact { colours: 1 })?;
    let b = book.make(&[], Kind::Identity { colours: 1 })?;
    let a_b = book.make(
        &[],
        Kind::Compose {
            first: a,
            second: b,
        },
    )?;
    let b_a = book.make(
        &[],
        Kind::Compose {
            first: b,
            second: a,
        },
    )?;
    assert!(rt; book.key(a_b)? != book.key(b_a)?);
    let half = Frac::new(false, 1, 2)?;
    let halved = book.make(&[], Kind::Scale { of: a, by: half })?;
    let back = book.make(
        &[],
        Kind::Scale {
            of: a,
            by: half.neg(),
        },
    )?;
    assert!(rt; book.key(halved)? != book.key(back)?);
    let mut other = Book::new(rt.alloc());
    let d = other.make(&[], Kind::Identity { colours: 1 })?;
    let c = other.make(&[], Kind::Exact { colours: 1 })?;
    let c_d = other.make(
        &[],
        Kind::Compose {
            first: c,
            second: d,
        },
    )?;
    assert!(rt; book.key(a_b)? == other.key(c_d)?);
    Ok(())
}
