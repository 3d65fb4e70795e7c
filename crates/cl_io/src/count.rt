//! Counts of faults and calls.
ghost use Rattle.std.specs.Prelude.{◌≡◌};
ghost use Rattle.cl_io.specs.Faults as faults;

// A count after one more; it stands still at its type's end.
pub(crate) fn one_more(count: u64) -> u64
    ensures { result ≡ faults.one_more count }
{
    count.saturating_add(1)
}
