//! The reply with the splittings of a tree.

ghost use Rattle.std.specs.Prelude.{◌≡◌, ◌*◌, ◌+◌, ◌^◌, ◌<◌, ◌++◌, ◌∷◌, [], All, length, None, OnOk, OnErr};
ghost use Rattle.bs_tree.specs.Code.{child_codes};
ghost use Rattle.bs_split.specs.Splitting.{split_codes};
ghost use Rattle.bs_catalog.specs.Shelf.{Code as Pairs, Numbers, Grows};
ghost use Rattle.bs_catalog.specs.Making.{AreHalves};
ghost use Rattle.bs_reply.specs.Lines.{count_line, split_line};
ghost use Rattle.bs_listing.specs.Items.{split_reply};
ghost use Rattle.bs_listing.specs.Texts.{head_text, IsFront};
ghost use Rattle.bs_listing.specs.Writes.{WritesCutOff, WritesUnder, WritesKept, WritesSplits};

use crate::scribe::Scribe;
use crate::sides::SplitSide;
use bs_catalog::Halves;
use bs_reply::{Line, Word, write_line};
use bs_steps::Steps;
use bs_tree::Code;
use std::alloc::AllocError;
use std::sync::ledger::Ledger;

/// Appends the reply with the splittings of a tree, and counts each of them.
pub fn write_splits<L: Ledger>(
    out: &mut Vec<u8>,
    code: Code,
    steps: &mut Steps<L>,
) -> Result<(), AllocError>
    ensures written { OnOk result (out.new.items ≡ out.old.items ++ split_reply code) }
    ensures counted { OnOk result (steps.new ≡ steps.old + length (split_codes code)) }
    ensures unchanged { OnErr result (out.new.items ≡ out.old.items) }
{
    let start = out.len();
    let outcome = push_splits(out, code, steps);
    if outcome.is_err() {
        out.truncate(start);
    }
    outcome
}

/// Appends the number of the splittings and their lines, or some front of that.
fn push_splits<L: Ledger>(
    out: &mut Vec<u8>,
    code: Code,
    steps: &mut Steps<L>,
) -> Result<(), AllocError>
    ensures written { OnOk result (out.new.items ≡ out.old.items ++ split_reply code) }
    ensures counted { OnOk result (steps.new ≡ steps.old + length (split_codes code)) }
    ensures front { IsFront out.old.items out.new.items }
{
    let mut scribe = Scribe::new(*out.allocator());
    let tree = scribe.number(&code)?;
    match scribe.halves(tree)? {
        Some(halves) => push_halved(out, &mut scribe, code, halves, steps),
        None => push_leaf(out, &mut scribe, code, tree, steps),
    }
}

/// Appends the number of the splittings and the line of the one that keeps nothing, or some front of that.
fn push_front<L: Ledger>(
    out: &mut Vec<u8>,
    code: Code,
    number: u64,
    steps: &mut Steps<L>,
) -> Result<(), AllocError>
    ensures written { OnOk result (out.new.items ≡ out.old.items ++ (count_line Word.Split number ++ split_line None (code ∷ []))) }
    ensures counted { OnOk result (steps.new ≡ steps.old + 1) }
    ensures front { IsFront out.old.items out.new.items }
{
    let word = Word::Split;
    write_line(out, &Line::Count { word, number })?;
    steps.tick();
    write_line(out, &Line::NothingKept { code })
}

/// Appends the reply of a tree of one node, or some front of it.
fn push_leaf<L: Ledger>(
    out: &mut Vec<u8>,
    scribe: &mut Scribe,
    code: Code,
    tree: u32,
    steps: &mut Steps<L>,
) -> Result<(), AllocError>
    requires is { Numbers scribe.old.codes tree code }
    requires leaf { length (child_codes code) ≡ 0 }
    ensures written { OnOk result (out.new.items ≡ out.old.items ++ split_reply code) }
    ensures counted { OnOk result (steps.new ≡ steps.old + length (split_codes code)) }
    ensures front { IsFront out.old.items out.new.items }
{
    push_front(out, code, 2, steps)?;
    steps.tick();
    scribe.push_head(out, tree)?;
    out.extend_from_slice(b"\n")
}

/// Appends the reply of a tree of more than one node, or some front of it.
fn push_halved<L: Ledger>(
    out: &mut Vec<u8>,
    scribe: &mut Scribe,
    code: Code,
    halves: Halves,
    steps: &mut Steps<L>,
) -> Result<(), AllocError>
    requires { AreHalves scribe.old.codes code halves.child halves.rest }
    ensures written { OnOk result (out.new.items ≡ out.old.items ++ split_reply code) }
    ensures counted { OnOk result (steps.new ≡ steps.old + length (split_codes code)) }
    ensures front { IsFront out.old.items out.new.items }
{
    let kids = scribe.splits(halves.child, b"")?;
    let rest = scribe.splits(halves.rest, b"\n")?;
    let number = count_splits(kids.heads.len(), rest.heads.len());
    push_front(out, code, number, steps)?;
    push_lines(out, scribe, halves.child, &kids, &rest, steps)
}

/// How many splittings there are: the one that keeps nothing, those that cut the first child off, and those that keep its root.
fn count_splits(kids: usize, rest: usize) -> u64
    requires few { kids * rest + rest + 1 < 2 ^ 64 }
    ensures { result ≡ kids * rest + rest + 1 }
{
    kids as u64 * rest as u64 + rest as u64 + 1
}

/// Appends the lines of the splittings that keep the root, or some front of them.
fn push_lines<L: Ledger>(
    out: &mut Vec<u8>,
    scribe: &mut Scribe,
    child: u32,
    kids: &SplitSide,
    rest: &SplitSide,
    steps: &mut Steps<L>,
) -> Result<(), AllocError>
    requires child { child < length scribe.old.codes }
    requires heads { All (λ n. n < length scribe.old.codes) rest.now.heads.items }
    requires kids { length kids.now.heads.items ≡ length kids.now.texts }
    requires rest { length rest.now.heads.items ≡ length rest.now.texts }
    ensures written { OnOk result (WritesSplits scribe.old.codes child kids.now.heads.items kids.now.texts rest.now.heads.items rest.now.texts out.old.items out.new.items) }
    ensures counted { OnOk result (steps.new ≡ steps.old + (length rest.now.heads.items + length kids.now.heads.items * length rest.now.heads.items)) }
    ensures front { IsFront out.old.items out.new.items }
{
    let mut cut = Vec::new(*out.allocator());
    scribe.push_tree(&mut cut, child)?;
    push_cut_off(out, scribe, &cut, rest, steps)?;
    push_kept(out, scribe, kids, rest, steps)
}

/// Appends the lines of the splittings that cut the first child off, of which this is the text, or some front of them.
fn push_cut_off<L: Ledger>(
    out: &mut Vec<u8>,
    scribe: &mut Scribe,
    cut: &[u8],
    rest: &SplitSide,
    steps: &mut Steps<L>,
) -> Result<(), AllocError>
    requires heads { All (λ n. n < length scribe.old.codes) rest.now.heads.items }
    requires rest { length rest.now.heads.items ≡ length rest.now.texts }
    ensures same { scribe.new ≡ scribe.old }
    ensures written { OnOk result (WritesCutOff scribe.old.codes cut.now rest.now.heads.items rest.now.texts out.old.items out.new.items) }
    ensures counted { OnOk result (steps.new ≡ steps.old + length rest.now.heads.items) }
    ensures front { IsFront out.old.items out.new.items }
{
    'rest: for place in 0..rest.heads.len() {
        push_line(
            out,
            scribe,
            rest.heads[place],
            cut,
            rest.texts.get(place),
            steps,
        )?;
    }
    Ok(())
}

/// Appends the lines of the splittings that keep the first child's root, or some front of them.
fn push_kept<L: Ledger>(
    out: &mut Vec<u8>,
    scribe: &mut Scribe,
    kids: &SplitSide,
    rest: &SplitSide,
    steps: &mut Steps<L>,
) -> Result<(), AllocError>
    requires kids { length kids.now.heads.items ≡ length kids.now.texts }
    requires rest { length rest.now.heads.items ≡ length rest.now.texts }
    ensures grows { Grows scribe.old scribe.new }
    ensures written { OnOk result (WritesKept scribe.old.codes kids.now.heads.items kids.now.texts rest.now.heads.items rest.now.texts out.old.items out.new.items) }
    ensures counted { OnOk result (steps.new ≡ steps.old + length kids.now.heads.items * length rest.now.heads.items) }
    ensures front { IsFront out.old.items out.new.items }
{
    'kids: for place in 0..kids.heads.len() {
        push_under(
            out,
            scribe,
            kids.heads[place],
            kids.texts.get(place),
            rest,
            steps,
        )?;
    }
    Ok(())
}

/// Appends the lines of the splittings that split the first child so, of which this tree is kept and these are cut off, or some
/// front of them.
fn push_under<L: Ledger>(
    out: &mut Vec<u8>,
    scribe: &mut Scribe,
    below: u32,
    cut: &[u8],
    rest: &SplitSide,
    steps: &mut Steps<L>,
) -> Result<(), AllocError>
    requires { length rest.now.heads.items ≡ length rest.now.texts }
    ensures grows { Grows scribe.old scribe.new }
    ensures written { OnOk result (WritesUnder scribe.old.codes below cut.now rest.now.heads.items rest.now.texts out.old.items out.new.items) }
    ensures counted { OnOk result (steps.new ≡ steps.old + length rest.now.heads.items) }
    ensures front { IsFront out.old.items out.new.items }
{
    'rest: for place in 0..rest.heads.len() {
        let head = scribe.attach(rest.heads[place], below)?;
        push_line(out, scribe, head, cut, rest.texts.get(place), steps)?;
    }
    Ok(())
}

/// Appends the line of what is kept and of two texts, or some front of it.
fn push_line<L: Ledger>(
    out: &mut Vec<u8>,
    scribe: &mut Scribe,
    head: u32,
    cut: &[u8],
    end: &[u8],
    steps: &mut Steps<L>,
) -> Result<(), AllocError>
    requires { head < length scribe.old.codes }
    ensures same { scribe.new ≡ scribe.old }
    ensures written { OnOk result ((code : Pairs) → Numbers scribe.old.codes head code → out.new.items ≡ out.old.items ++ (head_text code ++ cut.now ++ end.now)) }
    ensures counted { steps.new ≡ steps.old + 1 }
    ensures front { IsFront out.old.items out.new.items }
{
    steps.tick();
    scribe.push_head(out, head)?;
    out.extend_from_slice(cut)?;
    out.extend_from_slice(end)
}
