//! Texts of the trees of a catalog, by number, each made once.

ghost use Rattle.std.specs.Prelude.{◌≡◌, ◌-◌, ◌<◌, ◌≤◌, ◌++◌, List, All, length, take, drop, IfOk, OnOk};
ghost use Rattle.bs_reply.specs.Lines.{trees_text};
ghost use Rattle.bs_catalog.specs.Shelf.{Code as Pairs, Numbers, AreNumbers};
ghost use Rattle.bs_listing.specs.Texts.{spaced, framed, head_text, HoldsTexts, IsFront};

use bs_catalog::Catalog;
use bs_levels::write_tree;
use bs_script::Texts;
use bs_tree::Code;
use std::alloc::{AllocError, Global};

/// The text of a tree between a space and a bar.
fn frame(alloc: Global, code: &Code) -> Result<Vec<u8>, AllocError>
    ensures { IfOk result (λ text. text.items ≡ framed code.now) }
{
    let mut text = Vec::new(alloc);
    text.push(b' ')?;
    write_tree(code, &mut text)?;
    text.extend_from_slice(b" |")?;
    Ok(text)
}

/// Makes the texts up to that of a number, where they are not made.
fn reach(alloc: Global, catalog: &Catalog, texts: &mut Texts, number: u32) -> Result<(), AllocError>
    requires there { number < length catalog.now.codes }
    requires texts { HoldsTexts catalog.now.codes texts.old }
    ensures texts { HoldsTexts catalog.now.codes texts.new }
    ensures reached { OnOk result (number < length texts.new) }
{
    'fill: while texts.len() <= number as usize {
        let code = catalog.code(texts.len() as u32);
        texts.push(&frame(alloc, &code)?)?;
    }
    Ok(())
}

/// Appends a text without its first byte.
fn push_without_space(out: &mut Vec<u8>, text: &[u8]) -> Result<(), AllocError>
    requires { 1 ≤ length text.now }
    ensures written { OnOk result (out.new.items ≡ out.old.items ++ drop 1 text.now) }
    ensures front { IsFront out.old.items out.new.items }
{
    out.extend_from_slice(&text[1..])
}

/// Appends a text without its last two bytes.
fn push_without_bar(out: &mut Vec<u8>, text: &[u8]) -> Result<(), AllocError>
    requires { 2 ≤ length text.now }
    ensures written { OnOk result (out.new.items ≡ out.old.items ++ take (length text.now - 2) text.now) }
    ensures front { IsFront out.old.items out.new.items }
{
    out.extend_from_slice(&text[..text.len() - 2])
}

/// Appends the text of a tree with a bar behind it.
pub(crate) fn push_head(
    alloc: Global,
    catalog: &Catalog,
    texts: &mut Texts,
    number: u32,
    out: &mut Vec<u8>,
) -> Result<(), AllocError>
    requires there { number < length catalog.now.codes }
    requires texts { HoldsTexts catalog.now.codes texts.old }
    ensures texts { HoldsTexts catalog.now.codes texts.new }
    ensures written { OnOk result ((code : Pairs) → Numbers catalog.now.codes number code → out.new.items ≡ out.old.items ++ head_text code) }
    ensures front { IsFront out.old.items out.new.items }
{
    reach(alloc, catalog, texts, number)?;
    push_without_space(out, texts.get(number as usize))
}

/// Appends a space and the text of a tree.
pub(crate) fn push_tree(
    alloc: Global,
    catalog: &Catalog,
    texts: &mut Texts,
    number: u32,
    out: &mut Vec<u8>,
) -> Result<(), AllocError>
    requires there { number < length catalog.now.codes }
    requires texts { HoldsTexts catalog.now.codes texts.old }
    ensures texts { HoldsTexts catalog.now.codes texts.new }
    ensures written { OnOk result ((code : Pairs) → Numbers catalog.now.codes number code → out.new.items ≡ out.old.items ++ spaced code) }
    ensures front { IsFront out.old.items out.new.items }
{
    reach(alloc, catalog, texts, number)?;
    push_without_bar(out, texts.get(number as usize))
}

/// Appends the text of each tree of a row behind a space, or some of them.
pub(crate) fn push_trees(
    alloc: Global,
    catalog: &Catalog,
    texts: &mut Texts,
    row: &[u32],
    out: &mut Vec<u8>,
) -> Result<(), AllocError>
    requires there { All (λ n. n < length catalog.now.codes) row.now }
    requires texts { HoldsTexts catalog.now.codes texts.old }
    ensures texts { HoldsTexts catalog.now.codes texts.new }
    ensures written { OnOk result ((trees : List Pairs) → AreNumbers catalog.now.codes row.now trees → out.new.items ≡ out.old.items ++ trees_text trees) }
{
    'trees: for number in row {
        push_tree(alloc, catalog, texts, *number, out)?;
    }
    Ok(())
}
