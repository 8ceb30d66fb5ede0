//! Names of entries, and the stripe of a code.
ghost use Rattle.std.specs.Prelude.{◌≡◌, ◌<◌, ◌≢◌};
ghost use Rattle.bs_core.specs.Codes.{hashed, hash_from, stripe_of};

use bs_tree::Code;

/// The name of an entry: its stripe, and its slot there.
#[derive(Clone, Copy, PartialEq, Eq, Hash, Default, Debug)]
pub struct Name {
    pub stripe: u16,
    pub slot: u64,
}

/// One more byte of a hash: 31 times the hash so far, and the byte, modulo 2^64.
fn hashed(hash: u64, byte: u8) -> u64
    ensures { result ≡ hashed hash byte }
{
    let sum = 31 * u128::from(hash) + u128::from(byte);
    (sum % (1 << 64)) as u64
}

/// The hash of the bytes level, colour of each pair.
fn hash_of(pairs: &[(u8, u8)]) -> u64
    ensures { result ≡ hash_from 0 pairs.now }
{
    let mut hash = 0;
    'pairs: for pair in pairs {
        hash = hashed(hashed(hash, pair.0), pair.1);
    }
    hash
}

/// The stripe of a code among this many.
pub fn stripe_of(code: &Code, stripes: u16) -> u16
    requires { 0 < stripes }
    ensures value { result ≡ stripe_of stripes code.now }
    ensures small { result < stripes }
{
    (hash_of(code.pairs()) % u64::from(stripes)) as u16
}
