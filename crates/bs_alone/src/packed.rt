//! Codes as numbers.
ghost use Rattle.std.specs.Prelude.{◌≡◌};
ghost use Rattle.bs_alone.specs.Packed.{packed, unpacked};

use bs_tree::Code;

/// The code as one number, which tells it from all other codes.
pub(crate) fn pack(code: &Code) -> u128
    ensures value { result ≡ packed code.now }
    ensures back { unpacked result ≡ code.now }
{
    let pairs = code.pairs();
    let mut place = pairs.len();
    let mut number = 0;
    'places: while place > 0 {
        place -= 1;
        let (level, colour) = pairs[place];
        number = 128 * number + u128::from(4 * level + colour);
    }
    number
}
