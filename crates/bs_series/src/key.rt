//! Keys of series, for tables that hold series of several books.
ghost use Rattle.std.specs.Prelude.{◌≡◌, ◌<◌, ◌++◌, ◌/◌, ◌%◌, ◌∷◌, [], length, IfOk, OnOk};
ghost use Rattle.bs_frac.specs.Text.{fraction_text};
ghost use Rattle.bs_series.specs.Expressions.{series_at};
ghost use Rattle.bs_series.specs.Keys.{key_of, counted, IsKeyed};

use crate::book::Book;
use crate::kind::{Kind, SeriesId};
use bs_frac::Frac;
use std::alloc::{AllocError, Global};

impl Book {
    /// Bytes that tell the series' expression from all others, of this book and of other books over the same tableaux.
    /// At most some 6,000.
    pub fn key(&self, id: SeriesId) -> Result<Vec<u8>, AllocError>
        requires { id < length self.now }
        ensures value { IfOk result (λ key. key.items ≡ key_of (series_at self.now id)) }
        ensures factors { IsKeyed (series_at self.now id) }
    {
        let _node = self.node(id);
        let alloc = self.alloc;
        let mut key = Vec::new(alloc);
        self.push_key(alloc, id, &mut key)?;
        Ok(key)
    }

    /// Appends the key of a series.
    fn push_key(&self, alloc: Global, id: SeriesId, key: &mut Vec<u8>) -> Result<(), AllocError>
        requires { id < length self.now }
        ensures { OnOk result (key.new.items ≡ key.old.items ++ key_of (series_at self.now id)) }
    {
        match self.kind(id) {
            Kind::Exact { colours } => push_two(key, 0, colours),
            Kind::Identity { colours } => push_two(key, 1, colours),
            Kind::Average { colours } => push_two(key, 2, colours),
            Kind::Method { table } => push_method(key, table, self.colours(id)),
            Kind::Compose { first, second } => {
                key.push(4)?;
                self.push_key(alloc, first, key)?;
                self.push_key(alloc, second, key)
            }
            Kind::Inverse { of } => {
                key.push(5)?;
                self.push_key(alloc, of, key)
            }
            Kind::Adjoint { of } => {
                key.push(6)?;
                self.push_key(alloc, of, key)
            }
            Kind::Substitute { inner, outer } => {
                key.push(7)?;
                self.push_key(alloc, inner, key)?;
                self.push_key(alloc, outer, key)
            }
            Kind::Modified { of } => {
                key.push(8)?;
                self.push_key(alloc, of, key)
            }
            Kind::Modifying { of } => {
                key.push(9)?;
                self.push_key(alloc, of, key)
            }
            Kind::Scale { of, by } => {
                key.push(10)?;
                self.push_key(alloc, of, key)?;
                push_factor(alloc, key, &by)
            }
        }
    }
}

fn push_two(key: &mut Vec<u8>, word: u8, colours: u8) -> Result<(), AllocError>
    ensures { OnOk result (key.new.items ≡ key.old.items ++ word ∷ colours ∷ []) }
{
    key.push(word)?;
    key.push(colours)?;
    Ok(())
}

fn push_method(key: &mut Vec<u8>, table: u16, colours: u8) -> Result<(), AllocError>
    ensures { OnOk result (key.new.items ≡ key.old.items ++ 3 ∷ table / 256 ∷ table % 256 ∷ colours ∷ []) }
{
    push_two(key, 3, (table / 256) as u8)?;
    push_two(key, (table % 256) as u8, colours)
}

/// Appends the text of a fraction behind its length.
fn push_factor(alloc: Global, key: &mut Vec<u8>, by: &Frac) -> Result<(), AllocError>
    ensures { OnOk result (key.new.items ≡ key.old.items ++ counted (fraction_text by.now)) }
{
    let _den = by.den();
    let mut text = Vec::new(alloc);
    by.write(&mut text)?;
    key.push(text.len() as u8)?;
    key.extend_from_slice(&text)?;
    Ok(())
}
