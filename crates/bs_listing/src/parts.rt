//! The reply with the partitions of a tree.

ghost use Rattle.std.specs.Prelude.{◌≡◌, ◌*◌, ◌+◌, ◌^◌, ◌<◌, ◌++◌, All, length, IfOk, OnOk, OnErr};
ghost use Rattle.bs_tree.specs.Code.{child_codes};
ghost use Rattle.bs_part.specs.Partition.{part_codes};
ghost use Rattle.bs_reply.specs.Lines.{count_line};
ghost use Rattle.bs_catalog.specs.Shelf.{Code as Pairs, Numbers, Grows};
ghost use Rattle.bs_catalog.specs.Making.{attached, merged, AreHalves};
ghost use Rattle.bs_catalog.specs.Memo.{Makes};
ghost use Rattle.bs_listing.specs.Items.{partition_reply};
ghost use Rattle.bs_listing.specs.Texts.{spaced, head_text, IsFront};
ghost use Rattle.bs_listing.specs.Writes.{WritesJoined, WritesSevered, WritesAllJoined, WritesAllSevered};

use crate::scribe::Scribe;
use crate::sides::{Crown, PartSide};
use bs_catalog::Halves;
use bs_reply::{Line, Word, write_line};
use bs_steps::Steps;
use bs_tree::Code;
use std::alloc::AllocError;
use std::sync::ledger::Ledger;

/// Appends the reply with the partitions of a tree, and counts each of them.
pub fn write_partitions<L: Ledger>(
    out: &mut Vec<u8>,
    code: Code,
    steps: &mut Steps<L>,
) -> Result<(), AllocError>
    ensures written { OnOk result (out.new.items ≡ out.old.items ++ partition_reply code) }
    ensures counted { OnOk result (steps.new ≡ steps.old + length (part_codes code)) }
    ensures unchanged { OnErr result (out.new.items ≡ out.old.items) }
{
    let start = out.len();
    let outcome = push_partitions(out, code, steps);
    if outcome.is_err() {
        out.truncate(start);
    }
    outcome
}

/// Appends the number of the partitions and their lines, or some front of that.
fn push_partitions<L: Ledger>(
    out: &mut Vec<u8>,
    code: Code,
    steps: &mut Steps<L>,
) -> Result<(), AllocError>
    ensures written { OnOk result (out.new.items ≡ out.old.items ++ partition_reply code) }
    ensures counted { OnOk result (steps.new ≡ steps.old + length (part_codes code)) }
    ensures front { IsFront out.old.items out.new.items }
{
    let mut scribe = Scribe::new(*out.allocator());
    let tree = scribe.number(&code)?;
    match scribe.halves(tree)? {
        Some(halves) => push_halved(out, &mut scribe, code, halves, steps),
        None => push_leaf(out, &mut scribe, code, tree, steps),
    }
}

/// Appends the number of the partitions.
fn push_count(out: &mut Vec<u8>, number: u64) -> Result<(), AllocError>
    ensures written { OnOk result (out.new.items ≡ out.old.items ++ count_line Word.Partition number) }
    ensures front { IsFront out.old.items out.new.items }
{
    let word = Word::Partition;
    write_line(out, &Line::Count { word, number })
}

/// Appends the reply of a tree of one node, or some front of it.
fn push_leaf<L: Ledger>(
    out: &mut Vec<u8>,
    scribe: &mut Scribe,
    code: Code,
    tree: u32,
    steps: &mut Steps<L>,
) -> Result<(), AllocError>
    requires is { Numbers scribe.old.codes tree code }
    requires leaf { length (child_codes code) ≡ 0 }
    ensures written { OnOk result (out.new.items ≡ out.old.items ++ partition_reply code) }
    ensures counted { OnOk result (steps.new ≡ steps.old + length (part_codes code)) }
    ensures front { IsFront out.old.items out.new.items }
{
    let skeleton = scribe.number(&Code::leaf(0))?;
    push_count(out, 1)?;
    push_line(
        out,
        scribe,
        Crown {
            skeleton,
            root: tree,
        },
        b"",
        b"\n",
        steps,
    )
}

/// Appends the reply of a tree of more than one node, or some front of it.
fn push_halved<L: Ledger>(
    out: &mut Vec<u8>,
    scribe: &mut Scribe,
    code: Code,
    halves: Halves,
    steps: &mut Steps<L>,
) -> Result<(), AllocError>
    requires { AreHalves scribe.old.codes code halves.child halves.rest }
    ensures written { OnOk result (out.new.items ≡ out.old.items ++ partition_reply code) }
    ensures counted { OnOk result (steps.new ≡ steps.old + length (part_codes code)) }
    ensures front { IsFront out.old.items out.new.items }
{
    let kids = scribe.parts(halves.child, b"")?;
    let rest = scribe.parts(halves.rest, b"\n")?;
    push_count(out, count_parts(kids.crowns.len(), rest.crowns.len()))?;
    push_joined(out, scribe, &kids, &rest, steps)?;
    push_severed(out, scribe, &kids, &rest, steps)
}

/// How many partitions there are: as many keep the edge above the first child as cut it.
fn count_parts(kids: usize, rest: usize) -> u64
    requires few { kids * rest + kids * rest < 2 ^ 64 }
    ensures { result ≡ kids * rest + kids * rest }
{
    let half = kids as u64 * rest as u64;
    half + half
}

/// Appends the lines of the partitions that keep the edge above the first child, or some front of them.
fn push_joined<L: Ledger>(
    out: &mut Vec<u8>,
    scribe: &mut Scribe,
    kids: &PartSide,
    rest: &PartSide,
    steps: &mut Steps<L>,
) -> Result<(), AllocError>
    requires kids { length kids.now.crowns.items ≡ length kids.now.texts }
    requires rest { length rest.now.crowns.items ≡ length rest.now.texts }
    ensures grows { Grows scribe.old scribe.new }
    ensures written { OnOk result (WritesAllJoined scribe.old.codes kids.now.crowns.items kids.now.texts rest.now.crowns.items rest.now.texts out.old.items out.new.items) }
    ensures counted { OnOk result (steps.new ≡ steps.old + length kids.now.crowns.items * length rest.now.crowns.items) }
    ensures front { IsFront out.old.items out.new.items }
{
    'kids: for place in 0..kids.crowns.len() {
        push_joined_under(
            out,
            scribe,
            kids.crowns[place],
            kids.texts.get(place),
            rest,
            steps,
        )?;
    }
    Ok(())
}

/// Appends the lines of those that part the first child so, of whose root's part and skeleton these are the numbers, or some front
/// of them.
fn push_joined_under<L: Ledger>(
    out: &mut Vec<u8>,
    scribe: &mut Scribe,
    below: Crown,
    others: &[u8],
    rest: &PartSide,
    steps: &mut Steps<L>,
) -> Result<(), AllocError>
    requires { length rest.now.crowns.items ≡ length rest.now.texts }
    ensures grows { Grows scribe.old scribe.new }
    ensures written { OnOk result (WritesJoined scribe.old.codes below others.now rest.now.crowns.items rest.now.texts out.old.items out.new.items) }
    ensures counted { OnOk result (steps.new ≡ steps.old + length rest.now.crowns.items) }
    ensures front { IsFront out.old.items out.new.items }
{
    'rest: for place in 0..rest.crowns.len() {
        let crown = join(scribe, rest.crowns[place], below)?;
        push_line(out, scribe, crown, others, rest.texts.get(place), steps)?;
    }
    Ok(())
}

/// The skeletons become one, and the part of the first child's root hangs on that of the root.
fn join(scribe: &mut Scribe, above: Crown, below: Crown) -> Result<Crown, AllocError>
    ensures grows { Grows scribe.old scribe.new }
    ensures skeleton { IfOk result (λ crown. Makes merged scribe.new.codes above.skeleton below.skeleton crown.skeleton) }
    ensures root { IfOk result (λ crown. Makes attached scribe.new.codes above.root below.root crown.root) }
{
    let skeleton = scribe.merge(above.skeleton, below.skeleton)?;
    let root = scribe.attach(above.root, below.root)?;
    Ok(Crown { skeleton, root })
}

/// Appends the lines of the partitions that cut the edge above the first child, or some front of them.
fn push_severed<L: Ledger>(
    out: &mut Vec<u8>,
    scribe: &mut Scribe,
    kids: &PartSide,
    rest: &PartSide,
    steps: &mut Steps<L>,
) -> Result<(), AllocError>
    requires roots { All (λ c. c.root < length scribe.old.codes) kids.now.crowns.items }
    requires tops { All (λ c. c.root < length scribe.old.codes) rest.now.crowns.items }
    requires kids { length kids.now.crowns.items ≡ length kids.now.texts }
    requires rest { length rest.now.crowns.items ≡ length rest.now.texts }
    ensures grows { Grows scribe.old scribe.new }
    ensures written { OnOk result (WritesAllSevered scribe.old.codes kids.now.crowns.items kids.now.texts rest.now.crowns.items rest.now.texts out.old.items out.new.items) }
    ensures counted { OnOk result (steps.new ≡ steps.old + length kids.now.crowns.items * length rest.now.crowns.items) }
    ensures front { IsFront out.old.items out.new.items }
{
    let mut parts = Vec::new(*out.allocator());
    'kids: for place in 0..kids.crowns.len() {
        let below = kids.crowns[place];
        parts.clear();
        scribe.push_tree(&mut parts, below.root)?;
        parts.extend_from_slice(kids.texts.get(place))?;
        push_severed_under(out, scribe, below.skeleton, &parts, rest, steps)?;
    }
    Ok(())
}

/// Appends the lines of those that part the first child so, of whose skeleton this is the number and whose parts are these, or some
/// front of them.
fn push_severed_under<L: Ledger>(
    out: &mut Vec<u8>,
    scribe: &mut Scribe,
    hung: u32,
    parts: &[u8],
    rest: &PartSide,
    steps: &mut Steps<L>,
) -> Result<(), AllocError>
    requires tops { All (λ c. c.root < length scribe.old.codes) rest.now.crowns.items }
    requires rest { length rest.now.crowns.items ≡ length rest.now.texts }
    ensures grows { Grows scribe.old scribe.new }
    ensures written { OnOk result (WritesSevered scribe.old.codes hung parts.now rest.now.crowns.items rest.now.texts out.old.items out.new.items) }
    ensures counted { OnOk result (steps.new ≡ steps.old + length rest.now.crowns.items) }
    ensures front { IsFront out.old.items out.new.items }
{
    'rest: for place in 0..rest.crowns.len() {
        let above = rest.crowns[place];
        let skeleton = scribe.attach(above.skeleton, hung)?;
        let crown = Crown {
            skeleton,
            root: above.root,
        };
        push_line(out, scribe, crown, parts, rest.texts.get(place), steps)?;
    }
    Ok(())
}

/// Appends the line of a skeleton, of the part of the root, and of two texts, or some front of it.
fn push_line<L: Ledger>(
    out: &mut Vec<u8>,
    scribe: &mut Scribe,
    crown: Crown,
    others: &[u8],
    end: &[u8],
    steps: &mut Steps<L>,
) -> Result<(), AllocError>
    requires skeleton { crown.skeleton < length scribe.old.codes }
    requires root { crown.root < length scribe.old.codes }
    ensures same { scribe.new ≡ scribe.old }
    ensures written { OnOk result ((skeleton root : Pairs) → Numbers scribe.old.codes crown.skeleton skeleton → Numbers scribe.old.codes crown.root root → out.new.items ≡ out.old.items ++ (head_text skeleton ++ (spaced root ++ others.now) ++ end.now)) }
    ensures counted { steps.new ≡ steps.old + 1 }
    ensures front { IsFront out.old.items out.new.items }
{
    steps.tick();
    scribe.push_head(out, crown.skeleton)?;
    scribe.push_tree(out, crown.root)?;
    out.extend_from_slice(others)?;
    out.extend_from_slice(end)
}
