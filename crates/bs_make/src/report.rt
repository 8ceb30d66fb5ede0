//! The summary of a made input. Where memory runs out, it is given up, so nothing is said of what was written by then.

ghost use Rattle.std.specs.Prelude.{◌≡◌, ◌++◌, [], ◌∷◌, decimal, flat_map, IfOk, OnOk};
ghost use Rattle.bs_make.specs.Made.{joined};
ghost use Rattle.bs_make.specs.Summary.{summary_text};

use crate::tally::Tally;
use crate::{MADE_COMMANDS, MADE_SESSIONS};
use itoa::Buffer;
use std::alloc::{AllocError, Global};

/// The summary of a seed, its input, and the text that the input gives, whose pieces are joined in order.
pub fn summary(
    alloc: Global,
    seed: u64,
    input: &[u8],
    reply: &[Vec<u8>],
) -> Result<Vec<u8>, AllocError>
    ensures { IfOk result (λ text. text.items ≡ summary_text seed input.now (flat_map (λ piece. piece.items) reply.now)) }
{
    let tally = Tally::of(reply);
    let mut out = Vec::new(alloc);
    write_line(&mut out, b"seed ", u128::from(seed))?;
    write_line(&mut out, b"input ", input.len() as u128)?;
    write_line(&mut out, b"sessions ", u128::from(MADE_SESSIONS))?;
    write_line(
        &mut out,
        b"commands ",
        u128::from(MADE_SESSIONS * MADE_COMMANDS),
    )?;
    write_line(&mut out, b"reply ", tally.bytes())?;
    write_line(&mut out, b"errors ", tally.errors())?;
    write_line(&mut out, b"fold ", u128::from(tally.folding()))?;
    Ok(out)
}

/// Appends a line of the words and the number behind them.
fn write_line(out: &mut Vec<u8>, words: &[u8], number: u128) -> Result<(), AllocError>
    ensures { OnOk result (out.new.items ≡ out.old.items ++ joined ((words.now ++ decimal number) ∷ [])) }
{
    let mut buffer = Buffer::new();
    out.extend_from_slice(words)?;
    out.extend_from_slice(buffer.format(number).as_bytes())?;
    out.extend_from_slice(b"\n")
}
