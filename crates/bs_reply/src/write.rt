//! Writing a reply line.
//!
//! Where memory runs out, the functions for one line leave a front of it behind what was there, and `write_line` takes that
//! front back.

ghost use Rattle.std.specs.Prelude.{◌≡◌, ◌++◌, [], ◌∷◌, None, take, codes, decimal, vec_len, OnOk, OnErr};
ghost use Rattle.bs_frac.specs.Text.{fraction_text};
ghost use Rattle.bs_reply.specs.Lines.{line_text, coef_text, head_line, error_line, tree_line, drop_line, same_line, info_line, weight_line, word_text, count_line, listed_line, split_line, verdict_text, condition_line, order_line, series_line, coeff_line, print_line, term_line, equal_yes_line, equal_empty_line, difference_text, equal_at_line};

use crate::line::{Line, Word};
use crate::verdict::Verdict;
use bs_frac::{Coef, Frac};
use bs_levels::write_tree;
use bs_tree::Code;
use itoa::Buffer;
use std::alloc::AllocError;

/// Appends the line with its line feed. The bytes may grow, so this takes memory.
pub fn write_line(out: &mut Vec<u8>, line: &Line<'_>) -> Result<(), AllocError>
    ensures written { OnOk result (out.new.items ≡ out.old.items ++ line_text line.now) }
    ensures unchanged { OnErr result (out.new.items ≡ out.old.items) }
{
    let start = out.len();
    let outcome = write_front(out, line);
    if outcome.is_err() {
        out.truncate(start);
    }
    outcome
}

/// Appends the line, or some front of it. What a line holds is large, and is read where it lies.
fn write_front(out: &mut Vec<u8>, line: &Line<'_>) -> Result<(), AllocError>
    ensures written { OnOk result (out.new.items ≡ out.old.items ++ line_text line.now) }
    ensures behind { OnErr result (take (vec_len out.old) out.new.items ≡ out.old.items) }
{
    match line {
        Line::Head { number } => write_head(out, *number),
        Line::Error { number } => write_error(out, *number),
        Line::Tree { name, code } => write_named_tree(out, name, code),
        Line::Drop { name } => write_drop(out, name),
        Line::Same { yes } => write_same(out, *yes),
        Line::Info {
            code,
            symmetry,
            density,
            alpha,
        } => write_info(out, code, *symmetry, *density, *alpha),
        Line::Weight { coef } => write_weight(out, coef),
        Line::Count { word, number } => write_count(out, *word, *number),
        Line::Listed { code } => write_listed(out, code),
        Line::NothingKept { code } => write_nothing_kept(out, code),
        Line::Condition { code, coef, target } => write_condition(out, code, coef, target),
        Line::Order { number, overflow } => write_order(out, *number, *overflow),
        Line::Series {
            name,
            empty,
            colours,
        } => write_series(out, name, empty, *colours),
        Line::Coeff { coef } => write_coeff(out, coef),
        Line::Print { number, empty } => write_print(out, *number, empty),
        Line::Term { code, coef } => write_term(out, code, coef),
        Line::EqualYes => write_equal_yes(out),
        Line::EqualEmpty { left, right } => write_equal_empty(out, left, right),
        Line::EqualAt { code, left, right } => write_equal_at(out, code, left, right),
    }
}

/// Appends the words and the number behind them.
fn write_number(out: &mut Vec<u8>, words: &[u8], number: u64) -> Result<(), AllocError>
    ensures written { OnOk result (out.new.items ≡ out.old.items ++ words.now ++ decimal number) }
    ensures unchanged { OnErr result (out.new.items ≡ out.old.items) }
{
    let mut buffer = Buffer::new();
    let digits = buffer.format(number).as_bytes();
    out.reserve(words.len() + digits.len())?;
    out.extend_from_slice(words)?;
    out.extend_from_slice(digits)
}

/// Appends the words and the fraction behind them, or some front of this.
fn write_value(out: &mut Vec<u8>, words: &[u8], value: &Frac) -> Result<(), AllocError>
    ensures written { OnOk result (out.new.items ≡ out.old.items ++ words.now ++ fraction_text value.now) }
    ensures behind { OnErr result (take (vec_len out.old) out.new.items ≡ out.old.items) }
{
    out.extend_from_slice(words)?;
    value.write(out)
}

fn write_coef(out: &mut Vec<u8>, coef: &Coef) -> Result<(), AllocError>
    ensures written { OnOk result (out.new.items ≡ out.old.items ++ coef_text coef.now) }
    ensures unchanged { OnErr result (out.new.items ≡ out.old.items) }
{
    match coef {
        Coef::Value(value) => value.write(out),
        Coef::Overflow => out.extend_from_slice(b"overflow"),
    }
}

fn write_head(out: &mut Vec<u8>, number: u64) -> Result<(), AllocError>
    ensures written { OnOk result (out.new.items ≡ out.old.items ++ head_line number) }
    ensures behind { OnErr result (take (vec_len out.old) out.new.items ≡ out.old.items) }
{
    write_number(out, b"session ", number)?;
    out.extend_from_slice(b"\n")
}

fn write_error(out: &mut Vec<u8>, number: u8) -> Result<(), AllocError>
    ensures written { OnOk result (out.new.items ≡ out.old.items ++ error_line number) }
    ensures behind { OnErr result (take (vec_len out.old) out.new.items ≡ out.old.items) }
{
    write_number(out, b"error ", u64::from(number))?;
    out.extend_from_slice(b"\n")
}

fn write_named_tree(out: &mut Vec<u8>, name: &[u8], code: &Code) -> Result<(), AllocError>
    ensures written { OnOk result (out.new.items ≡ out.old.items ++ tree_line name.now code.now) }
    ensures behind { OnErr result (take (vec_len out.old) out.new.items ≡ out.old.items) }
{
    out.extend_from_slice(b"tree ")?;
    out.extend_from_slice(name)?;
    out.extend_from_slice(b" ")?;
    write_tree(code, out)?;
    out.extend_from_slice(b"\n")
}

fn write_drop(out: &mut Vec<u8>, name: &[u8]) -> Result<(), AllocError>
    ensures written { OnOk result (out.new.items ≡ out.old.items ++ drop_line name.now) }
    ensures behind { OnErr result (take (vec_len out.old) out.new.items ≡ out.old.items) }
{
    out.extend_from_slice(b"drop ")?;
    out.extend_from_slice(name)?;
    out.extend_from_slice(b"\n")
}

fn write_same(out: &mut Vec<u8>, yes: bool) -> Result<(), AllocError>
    ensures written { OnOk result (out.new.items ≡ out.old.items ++ same_line yes) }
    ensures behind { OnErr result (take (vec_len out.old) out.new.items ≡ out.old.items) }
{
    if yes {
        out.extend_from_slice(b"same yes\n")
    } else {
        out.extend_from_slice(b"same no\n")
    }
}

fn write_info(
    out: &mut Vec<u8>,
    code: &Code,
    symmetry: u64,
    density: u64,
    alpha: u64,
) -> Result<(), AllocError>
    ensures written { OnOk result (out.new.items ≡ out.old.items ++ info_line code.now symmetry density alpha) }
    ensures behind { OnErr result (take (vec_len out.old) out.new.items ≡ out.old.items) }
{
    out.extend_from_slice(b"info ")?;
    write_tree(code, out)?;
    write_number(out, b" order ", code.order() as u64)?;
    write_number(out, b" symmetry ", symmetry)?;
    write_number(out, b" density ", density)?;
    write_number(out, b" alpha ", alpha)?;
    out.extend_from_slice(b"\n")
}

fn write_weight(out: &mut Vec<u8>, coef: &Coef) -> Result<(), AllocError>
    ensures written { OnOk result (out.new.items ≡ out.old.items ++ weight_line coef.now) }
    ensures behind { OnErr result (take (vec_len out.old) out.new.items ≡ out.old.items) }
{
    out.extend_from_slice(b"weight ")?;
    write_coef(out, coef)?;
    out.extend_from_slice(b"\n")
}

fn write_word(out: &mut Vec<u8>, word: Word) -> Result<(), AllocError>
    ensures written { OnOk result (out.new.items ≡ out.old.items ++ word_text word) }
    ensures unchanged { OnErr result (out.new.items ≡ out.old.items) }
{
    match word {
        Word::Trees => out.extend_from_slice(b"trees"),
        Word::Split => out.extend_from_slice(b"split"),
        Word::Partition => out.extend_from_slice(b"partition"),
        Word::Conditions => out.extend_from_slice(b"conditions"),
    }
}

fn write_count(out: &mut Vec<u8>, word: Word, number: u64) -> Result<(), AllocError>
    ensures written { OnOk result (out.new.items ≡ out.old.items ++ count_line word number) }
    ensures behind { OnErr result (take (vec_len out.old) out.new.items ≡ out.old.items) }
{
    write_word(out, word)?;
    write_number(out, b" ", number)?;
    out.extend_from_slice(b"\n")
}

fn write_listed(out: &mut Vec<u8>, code: &Code) -> Result<(), AllocError>
    ensures written { OnOk result (out.new.items ≡ out.old.items ++ listed_line code.now) }
    ensures behind { OnErr result (take (vec_len out.old) out.new.items ≡ out.old.items) }
{
    write_tree(code, out)?;
    out.extend_from_slice(b"\n")
}

fn write_nothing_kept(out: &mut Vec<u8>, code: &Code) -> Result<(), AllocError>
    ensures written { OnOk result (out.new.items ≡ out.old.items ++ split_line None (code.now ∷ [])) }
    ensures behind { OnErr result (take (vec_len out.old) out.new.items ≡ out.old.items) }
{
    out.extend_from_slice(b"empty | ")?;
    write_tree(code, out)?;
    out.extend_from_slice(b"\n")
}

fn write_verdict(out: &mut Vec<u8>, verdict: Verdict) -> Result<(), AllocError>
    ensures written { OnOk result (out.new.items ≡ out.old.items ++ verdict_text verdict) }
    ensures unchanged { OnErr result (out.new.items ≡ out.old.items) }
{
    match verdict {
        Verdict::Holds => out.extend_from_slice(b"yes"),
        Verdict::Fails => out.extend_from_slice(b"no"),
        Verdict::Unknown => out.extend_from_slice(b"unknown"),
    }
}

fn write_condition(
    out: &mut Vec<u8>,
    code: &Code,
    coef: &Coef,
    target: &Frac,
) -> Result<(), AllocError>
    ensures written { OnOk result (out.new.items ≡ out.old.items ++ condition_line code.now coef.now target.now) }
    ensures behind { OnErr result (take (vec_len out.old) out.new.items ≡ out.old.items) }
{
    write_tree(code, out)?;
    out.extend_from_slice(b" ")?;
    write_coef(out, coef)?;
    out.extend_from_slice(b" ")?;
    target.write(out)?;
    out.extend_from_slice(b" ")?;
    write_verdict(out, Verdict::of(coef, target))?;
    out.extend_from_slice(b"\n")
}

fn write_order(out: &mut Vec<u8>, number: u64, overflow: bool) -> Result<(), AllocError>
    ensures written { OnOk result (out.new.items ≡ out.old.items ++ order_line number overflow) }
    ensures behind { OnErr result (take (vec_len out.old) out.new.items ≡ out.old.items) }
{
    write_number(out, b"order ", number)?;
    if overflow {
        out.extend_from_slice(b" overflow\n")
    } else {
        out.extend_from_slice(b"\n")
    }
}

fn write_series(out: &mut Vec<u8>, name: &[u8], empty: &Frac, colours: u8) -> Result<(), AllocError>
    ensures written { OnOk result (out.new.items ≡ out.old.items ++ series_line name.now empty.now colours) }
    ensures behind { OnErr result (take (vec_len out.old) out.new.items ≡ out.old.items) }
{
    out.extend_from_slice(b"series ")?;
    out.extend_from_slice(name)?;
    write_value(out, b" empty ", empty)?;
    write_number(out, b" colours ", u64::from(colours))?;
    out.extend_from_slice(b"\n")
}

fn write_coeff(out: &mut Vec<u8>, coef: &Coef) -> Result<(), AllocError>
    ensures written { OnOk result (out.new.items ≡ out.old.items ++ coeff_line coef.now) }
    ensures behind { OnErr result (take (vec_len out.old) out.new.items ≡ out.old.items) }
{
    out.extend_from_slice(b"coeff ")?;
    write_coef(out, coef)?;
    out.extend_from_slice(b"\n")
}

fn write_print(out: &mut Vec<u8>, number: u64, empty: &Frac) -> Result<(), AllocError>
    ensures written { OnOk result (out.new.items ≡ out.old.items ++ print_line number empty.now) }
    ensures behind { OnErr result (take (vec_len out.old) out.new.items ≡ out.old.items) }
{
    write_number(out, b"print ", number)?;
    write_value(out, b" empty ", empty)?;
    out.extend_from_slice(b"\n")
}

fn write_term(out: &mut Vec<u8>, code: &Code, coef: &Coef) -> Result<(), AllocError>
    ensures written { OnOk result (out.new.items ≡ out.old.items ++ term_line code.now coef.now) }
    ensures behind { OnErr result (take (vec_len out.old) out.new.items ≡ out.old.items) }
{
    write_tree(code, out)?;
    out.extend_from_slice(b" ")?;
    write_coef(out, coef)?;
    out.extend_from_slice(b"\n")
}

fn write_equal_yes(out: &mut Vec<u8>) -> Result<(), AllocError>
    ensures written { OnOk result (out.new.items ≡ out.old.items ++ equal_yes_line) }
    ensures behind { OnErr result (take (vec_len out.old) out.new.items ≡ out.old.items) }
{
    out.extend_from_slice(b"equal yes\n")
}

fn write_equal_empty(out: &mut Vec<u8>, left: &Frac, right: &Frac) -> Result<(), AllocError>
    ensures written { OnOk result (out.new.items ≡ out.old.items ++ equal_empty_line left.now right.now) }
    ensures behind { OnErr result (take (vec_len out.old) out.new.items ≡ out.old.items) }
{
    write_value(out, b"equal no empty ", left)?;
    write_value(out, b" ", right)?;
    out.extend_from_slice(b"\n")
}

fn write_difference(out: &mut Vec<u8>, left: &Coef, right: &Coef) -> Result<(), AllocError>
    ensures written { OnOk result (out.new.items ≡ out.old.items ++ difference_text left.now right.now) }
    ensures unchanged { OnErr result (out.new.items ≡ out.old.items) }
{
    match (left, right) {
        (Coef::Value(_), Coef::Value(_)) => out.extend_from_slice(b"equal no"),
        _ => out.extend_from_slice(b"equal overflow"),
    }
}

fn write_equal_at(
    out: &mut Vec<u8>,
    code: &Code,
    left: &Coef,
    right: &Coef,
) -> Result<(), AllocError>
    ensures written { OnOk result (out.new.items ≡ out.old.items ++ equal_at_line code.now left.now right.now) }
    ensures behind { OnErr result (take (vec_len out.old) out.new.items ≡ out.old.items) }
{
    write_difference(out, left, right)?;
    out.extend_from_slice(b" ")?;
    write_tree(code, out)?;
    out.extend_from_slice(b" ")?;
    write_coef(out, left)?;
    out.extend_from_slice(b" ")?;
    write_coef(out, right)?;
    out.extend_from_slice(b"\n")
}
