//! The loop: operands from a table of fractions that a generator fills, sums and products by turns.
ghost use Rattle.std.specs.Prelude.{◌≡◌, IfOk, IfSome, vec_len};

use bs_frac::{Frac, Overflow};
use std::alloc::{AllocError, Global};

/// What a run found.
#[derive(Clone, Copy)]
pub struct Tally {
    pub overflows: u32,
    pub checksum: u64,
}

/// Knuth's multiplicative generator of 64 bits; its high bits are the better ones.
#[derive(Drop)]
struct Generator {
    state: u64,
}

impl Generator {
    fn next(&mut self) -> u64 {
        self.state = self
            .state
            .wrapping_mul(6364136223846793005)
            .wrapping_add(1442695040888963407);
        self.state >> 32
    }

    /// A number of so many bytes, of at most 127 bits.
    fn number(&mut self, bytes: u32) -> u128 {
        let mut n: u128 = 0;
        for _ in 0..4 {
            n = (n << 32) | u128::from(self.next());
        }
        n %= 1 << 127;
        match bytes {
            1 => n % 256,
            2 => n % 65536,
            _ => n,
        }
    }

    fn fraction(&mut self, bytes: u32) -> Result<Frac, Overflow> {
        let negative = self.next() % 2 == 1;
        let num = self.number(bytes);
        let den = match self.number(bytes) {
            0 => 1,
            den => den,
        };
        Frac::new(negative, num, den)
    }
}

/// Folds one more result into the checksum.
fn folded(checksum: u64, found: &Frac) -> u64 {
    let num = (found.num() % (1 << 64)) as u64;
    let den = (found.den() % (1 << 64)) as u64;
    let sign = u64::from(found.is_negative());
    checksum
        .wrapping_mul(31)
        .wrapping_add(num)
        .wrapping_add(den.wrapping_mul(7))
        .wrapping_add(sign)
}

/// So many fractions as there are places, or None where one overflows.
fn table(alloc: Global, bytes: u32) -> Result<Option<Vec<Frac>>, AllocError>
    ensures { IfOk result (λ t. IfSome t (λ v. vec_len v ≡ PLACES)) }
{
    let mut generator = Generator {
        state: u64::from(bytes),
    };
    let mut fractions = Vec::new(alloc);
    'places: for _place in 0..PLACES {
        let Ok(fraction) = generator.fraction(bytes) else {
            return Ok(None);
        };
        fractions.push(fraction)?;
    }
    Ok(Some(fractions))
}

const PLACES: u32 = 256;

/// So many sums and products over fractions of so many bytes; None where the generator's fractions overflow.
pub fn run(alloc: Global, bytes: u32, rounds: u32) -> Result<Option<Tally>, AllocError> {
    let Some(fractions) = table(alloc, bytes)? else {
        return Ok(None);
    };
    let mut tally = Tally {
        overflows: 0,
        checksum: 0,
    };
    'rounds: for round in 0..rounds {
        let x = &fractions[(round % PLACES) as usize];
        let y = &fractions[(round / 7 % PLACES) as usize];
        match if round % 2 == 0 { x.add(y) } else { x.mul(y) } {
            Ok(found) => tally.checksum = folded(tally.checksum, &found),
            Err(_) => tally.overflows += 1,
        }
    }
    Ok(Some(tally))
}
