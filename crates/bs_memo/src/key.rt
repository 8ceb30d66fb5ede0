//! Keys of remembered values. A contract sees a key as the bytes of its series and the name of its tree.
ghost use Rattle.std.specs.Prelude.{◌≡◌, ◌<◌, ◌+◌, ◌*◌, ◌%◌, ◌^◌, length, IfOk};
ghost use Rattle.std.specs.Cmp.{partial_equiv_from_equiv};
ghost use Rattle.std.specs.Hash.{same_Alike};
ghost use Rattle.bs_series.specs.Expressions.{series_at};
ghost use Rattle.bs_series.specs.Keys.{key_of, IsKeyed};
ghost use Rattle.bs_memo.specs.Keys.{OfKey, digested, digest_of, same_key, same_key-Decides, key_equivalence, key_writes};

use bs_core::Name;
use bs_series::{Book, SeriesId};
use std::alloc::{AllocError, Global};
use std::hash::{Hash, Hasher};
use std::marker::Model;
use std::sync::Arc;

/// A series and a tree. The bytes of the series are shared by the keys that were copied from one.
#[derive(Drop)]
pub struct MemoKey {
    series: Arc<Vec<u8>, Global>,
    digest: u64,
    name: Name,
}

impl Model for MemoKey {
    ghost use Rattle.std.specs.Prelude.{◌≡◌};
    ghost use Rattle.std.specs.Arc.{arc_value};
    ghost use Rattle.bs_memo.specs.Keys.{OfKey, digest_of};

    ghost Value = { OfKey };

    ghost view = { λ a. record { series = (arc_value a.series).items; name = a.name } };

    ghost invariant = { λ a. a.digest ≡ digest_of (arc_value a.series).items };
}

impl PartialEq for MemoKey {
    ghost eq = { same_key };

    ghost laws = { partial_equiv_from_equiv key_equivalence };

    fn eq(&self, other: &MemoKey) -> bool {
        self.name == other.name
            && self.digest == other.digest
            && self.series.as_slice() == other.series.as_slice()
    }
}

impl Eq for MemoKey {
    ghost laws = { key_equivalence };
}

impl Hash for MemoKey {
    ghost hash_input = { key_writes };

    ghost respects_eq = { (same_Alike key_writes same_key-Decides).fed };

    fn hash<H: Hasher>(&self, state: &mut H) {
        self.digest.hash(state);
        self.name.hash(state);
    }
}

/// One more byte of a digest: 31 times the digest so far, and the byte, modulo 2^64.
fn digested(digest: u64, byte: u8) -> u64
    ensures { result ≡ digested digest byte }
{
    let sum = 31 * u128::from(digest) + u128::from(byte);
    (sum % (1 << 64)) as u64
}

/// The digest of the bytes.
fn digest_of(bytes: &[u8]) -> u64
    ensures { result ≡ digest_of bytes.now }
{
    let mut digest = 0;
    'bytes: for byte in bytes {
        digest = digested(digest, *byte);
    }
    digest
}

impl MemoKey {
    /// The key of a series at the tree of a name.
    pub fn new(alloc: Global, book: &Book, id: SeriesId, name: Name) -> Result<MemoKey, AllocError>
        requires { id < length book.now }
        ensures ok { IfOk result (λ key. key ≡ record { series = key_of (series_at book.now id); name = name }) }
        ensures keyed { IsKeyed (series_at book.now id) }
    {
        let bytes = book.key(id)?;
        let digest = digest_of(bytes.as_slice());
        let series = Arc::new(alloc, bytes)?;
        Ok(MemoKey {
            series,
            digest,
            name,
        })
    }

    /// The same series at the tree of another name. Takes no memory.
    pub fn set_name(&mut self, name: Name)
        ensures { self.new ≡ record { series = self.old.series; name = name } }
    {
        self.name = name;
    }

    /// The name of its tree. Takes no memory.
    pub fn name(&self) -> Name
        ensures { result ≡ self.now.name }
    {
        self.name
    }

    /// The same key once more. It shares the bytes of the series.
    pub fn copy(&self) -> Result<MemoKey, AllocError>
        ensures { IfOk result (λ key. key ≡ self.now) }
    {
        let series = Arc::try_clone(&self.series)?;
        Ok(MemoKey {
            series,
            digest: self.digest,
            name: self.name,
        })
    }
}
