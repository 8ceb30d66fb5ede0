//! Writing the made input. Where memory runs out, the input is given up, so nothing is said of what was written by then.

ghost use Rattle.std.specs.Prelude.{◌≡◌, ◌<◌, ◌++◌, codes, decimal, flat_map, IfOk, OnOk};
ghost use Rattle.bs_make.specs.Draws.{after_draws};
ghost use Rattle.bs_make.specs.Made.{joined, tree_name, further, tree_line, tree_lines, after_tree, after_trees, method_name, question_lines, series_lines, derived_lines, coeff_lines, last_lines, further_commands, commands, after_session, session_block, session_lines, table_lines, made_text};

use crate::generator::Generator;
use crate::{MADE_SESSIONS, MADE_TREES};
use itoa::Buffer;
use std::alloc::{AllocError, Global};

/// The script of a seed.
#[tactic(auto, using(crate::proofs::Texts::joined_append), unfolding(crate::specs::Made::made_lines))]
pub fn make_input(alloc: Global, seed: u64) -> Result<Vec<u8>, AllocError>
    ensures { IfOk result (λ input. input.items ≡ made_text seed) }
{
    let mut generator = Generator::new(seed);
    let mut out = Vec::new(alloc);
    write_tables(&mut out)?;
    write_sessions(&mut out, &mut generator)?;
    Ok(out)
}

/// Appends the three tableaux.
#[tactic(auto, unfolding(crate::specs::Made::table_lines))]
fn write_tables(out: &mut Vec<u8>) -> Result<(), AllocError>
    ensures { OnOk result (out.new.items ≡ out.old.items ++ joined table_lines) }
{
    out.extend_from_slice(b"tableau euler 1\na 0\nb 1\nend\n")?;
    out.extend_from_slice(
        b"tableau rk4 4\na 0 0 0 0\na 1/2 0 0 0\na 0 1/2 0 0\na 0 0 1 0\nb 1/6 1/3 1/3 1/6\nend\n",
    )?;
    out.extend_from_slice(b"tableau mid 1\na 1/2\nb 1\nend\n")
}

/// Appends the sessions.
fn write_sessions(out: &mut Vec<u8>, generator: &mut Generator) -> Result<(), AllocError>
    ensures { OnOk result (out.new.items ≡ out.old.items ++ joined (session_lines MADE_SESSIONS generator.old)) }
{
    'sessions: for _ in 0..MADE_SESSIONS {
        write_session(out, generator)?;
    }
    Ok(())
}

/// Appends one session.
fn write_session(out: &mut Vec<u8>, generator: &mut Generator) -> Result<(), AllocError>
    ensures written { OnOk result (out.new.items ≡ out.old.items ++ joined (session_block generator.old)) }
    ensures stands { OnOk result (generator.new ≡ after_session generator.old) }
{
    out.extend_from_slice(b"session\n")?;
    write_commands(out, generator)?;
    out.extend_from_slice(b"end\n")?;
    Ok(())
}

/// Appends the commands of a session.
#[tactic(auto, using(crate::proofs::Texts::joined_append), unfolding(crate::specs::Made::commands, crate::specs::Made::after_session))]
fn write_commands(out: &mut Vec<u8>, generator: &mut Generator) -> Result<(), AllocError>
    ensures written { OnOk result (out.new.items ≡ out.old.items ++ joined (commands generator.old)) }
    ensures stands { OnOk result (generator.new ≡ after_session generator.old) }
{
    write_trees(out, generator)?;
    write_further_commands(out, generator)
}

/// Appends the trees of a session.
fn write_trees(out: &mut Vec<u8>, generator: &mut Generator) -> Result<(), AllocError>
    ensures written { OnOk result (out.new.items ≡ out.old.items ++ joined (tree_lines MADE_TREES 0 generator.old)) }
    ensures stands { OnOk result (generator.new ≡ after_trees MADE_TREES generator.old) }
{
    'trees: for j in 0..MADE_TREES {
        write_tree(out, j, generator)?;
    }
    Ok(())
}

/// Appends a tree of this number.
fn write_tree(out: &mut Vec<u8>, j: u64, generator: &mut Generator) -> Result<(), AllocError>
    ensures written { OnOk result (out.new.items ≡ out.old.items ++ tree_line j generator.old ++ codes "\n") }
    ensures stands { OnOk result (generator.new ≡ after_tree generator.old) }
{
    out.extend_from_slice(b"tree ")?;
    write_name(out, j)?;
    out.extend_from_slice(b" 1")?;
    write_further(out, generator.draw(10), generator)?;
    out.extend_from_slice(b"\n")?;
    Ok(())
}

/// Appends the levels of further nodes, each behind a comma.
fn write_further(out: &mut Vec<u8>, count: u64, generator: &mut Generator) -> Result<(), AllocError>
    requires { count < 10 }
    ensures written { OnOk result (out.new.items ≡ out.old.items ++ flat_map (λ level. codes "," ++ decimal level) (further count 1 generator.old)) }
    ensures stands { OnOk result (generator.new ≡ after_draws count generator.old) }
{
    let mut level = 1;
    'nodes: for _ in 0..count {
        level = 2 + generator.draw(level);
        write_number(out, b",", level)?;
    }
    Ok(())
}

/// Appends the words and the number behind them.
fn write_number(out: &mut Vec<u8>, words: &[u8], number: u64) -> Result<(), AllocError>
    ensures { OnOk result (out.new.items ≡ out.old.items ++ words.now ++ decimal number) }
{
    let mut buffer = Buffer::new();
    out.extend_from_slice(words)?;
    out.extend_from_slice(buffer.format(number).as_bytes())
}

/// Appends the name of a tree.
fn write_name(out: &mut Vec<u8>, j: u64) -> Result<(), AllocError>
    ensures { OnOk result (out.new.items ≡ out.old.items ++ tree_name j) }
{
    write_number(out, b"t", j)
}

/// Appends the commands behind the trees.
fn write_further_commands(out: &mut Vec<u8>, generator: &mut Generator) -> Result<(), AllocError>
    ensures written { OnOk result (out.new.items ≡ out.old.items ++ joined (further_commands generator.old)) }
    ensures stands { OnOk result (generator.new ≡ after_draws 2 generator.old) }
{
    write_questions(out, generator.draw(MADE_TREES))?;
    write_series(out, generator.draw(3))?;
    write_derived(out)?;
    write_coeffs(out)?;
    write_last(out)?;
    Ok(())
}

/// Appends what is asked of the trees.
#[tactic(auto, unfolding(crate::specs::Made::question_lines))]
fn write_questions(out: &mut Vec<u8>, j: u64) -> Result<(), AllocError>
    ensures { OnOk result (out.new.items ≡ out.old.items ++ joined (question_lines j)) }
{
    out.extend_from_slice(b"same t0 t1\nsame t2 t3\ninfo ")?;
    write_name(out, j)?;
    out.extend_from_slice(b"\n")
}

/// The tableau of this place.
#[tactic(auto, unfolding(crate::specs::Made::method_name))]
fn method_name(place: u64) -> &'static [u8]
    ensures { result.now ≡ method_name place }
{
    match place {
        0 => b"euler",
        1 => b"rk4",
        _ => b"mid",
    }
}

/// Appends the series of the method with this tableau.
fn write_method(out: &mut Vec<u8>, place: u64) -> Result<(), AllocError>
    ensures { OnOk result (out.new.items ≡ out.old.items ++ codes "series m method " ++ method_name place) }
{
    out.extend_from_slice(b"series m method ")?;
    out.extend_from_slice(method_name(place))
}

/// Appends the exact flow, and the method with this tableau.
fn write_series(out: &mut Vec<u8>, place: u64) -> Result<(), AllocError>
    ensures { OnOk result (out.new.items ≡ out.old.items ++ joined (series_lines place)) }
{
    out.extend_from_slice(b"series e exact\n")?;
    write_method(out, place)?;
    out.extend_from_slice(b"\n")?;
    Ok(())
}

/// Appends the three series that are made of those two.
#[tactic(auto, unfolding(crate::specs::Made::derived_lines))]
fn write_derived(out: &mut Vec<u8>) -> Result<(), AllocError>
    ensures { OnOk result (out.new.items ≡ out.old.items ++ joined derived_lines) }
{
    out.extend_from_slice(b"series d modified m\nseries c compose m e\nseries v inverse c\n")
}

/// Appends the coefficients at the trees.
fn write_coeffs(out: &mut Vec<u8>) -> Result<(), AllocError>
    ensures { OnOk result (out.new.items ≡ out.old.items ++ joined (coeff_lines MADE_TREES 0)) }
{
    'pairs: for j in 0..MADE_TREES {
        write_coeff_pair(out, j)?;
    }
    Ok(())
}

/// Appends the last commands.
#[tactic(auto, unfolding(crate::specs::Made::last_lines))]
fn write_last(out: &mut Vec<u8>) -> Result<(), AllocError>
    ensures { OnOk result (out.new.items ≡ out.old.items ++ joined last_lines) }
{
    out.extend_from_slice(b"print d 5\nequal m e 4\ndrop t0\n")
}

/// Appends the two coefficients at a tree.
fn write_coeff_pair(out: &mut Vec<u8>, j: u64) -> Result<(), AllocError>
    ensures { OnOk result (out.new.items ≡ out.old.items ++ joined (coeff_lines 1 j)) }
{
    out.extend_from_slice(b"coeff d ")?;
    write_name(out, j)?;
    out.extend_from_slice(b"\ncoeff v ")?;
    write_name(out, j)?;
    out.extend_from_slice(b"\n")
}
