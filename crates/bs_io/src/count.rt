//! Counts of calls and of faults. A count stands still at the greatest `u64`.

ghost use Rattle.std.specs.Prelude.{◌≡◌, ◌↔◌, IsTrue, Contains};
ghost use Rattle.bs_io.specs.Outside.{one_more};

/// One more, except at the greatest count.
pub fn raised(count: u64) -> u64
    ensures { result ≡ one_more count }
{
    count.saturating_add(1)
}

/// Whether the call of this number is to fail.
pub fn is_listed(fails: &[u64], call: u64) -> bool
    ensures { IsTrue result ↔ Contains fails.now call }
{
    fails.contains(&call)
}
