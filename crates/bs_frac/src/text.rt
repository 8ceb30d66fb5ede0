//! The text of a fraction, appended to bytes.
ghost use Rattle.std.specs.Prelude.{◌≡◌, ◌++◌, OnOk, OnErr};
ghost use Rattle.bs_frac.specs.Text.{fraction_text};

use crate::frac::Frac;
use itoa::Buffer;
use std::alloc::AllocError;

impl Frac {
    /// Appends `-` where the fraction is negative, the numerator, and `/` with the denominator where
    /// that is not 1. The bytes may grow, so this takes memory.
    pub fn write(&self, out: &mut Vec<u8>) -> Result<(), AllocError>
        ensures ok { OnOk result (out.new.items ≡ out.old.items ++ fraction_text self.now) }
        ensures err { OnErr result (out.new.items ≡ out.old.items) }
    {
        let mut num_buffer = Buffer::new();
        let mut den_buffer = Buffer::new();
        let num = num_buffer.format(self.num()).as_bytes();
        let den = den_buffer.format(self.den()).as_bytes();
        out.reserve(num.len() + den.len() + 2)?;
        if self.is_negative() {
            out.push(b'-')?;
        }
        out.extend_from_slice(num)?;
        if self.den() != 1 {
            out.push(b'/')?;
            out.extend_from_slice(den)?;
        }
        Ok(())
    }
}
