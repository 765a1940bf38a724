// Sets of times.
ghost use Rattle.std.specs.Prelude.{◌≡◌, ◌==◌, ◌||◌, ℕ, IfOk, OnOk};
ghost use Rattle.table_query.specs.GroupReading.{is_among};

use hudi_base::InstantTime;
use std::alloc::{AllocError, Global};
use std::collections::BTreeSet;

fn insert_time(t: InstantTime, times: &mut BTreeSet<InstantTime>) -> Result<(), AllocError>
    ensures { OnOk result ((other : ℕ) → is_among times.new.keys other ≡ ((other == t) || is_among times.old.keys other)) }
{
    times.insert(t)?;
    Ok(())
}

/// The times as a set.
pub(crate) fn set_of(
    alloc: Global,
    times: &[InstantTime],
) -> Result<BTreeSet<InstantTime>, AllocError>
    ensures { IfOk result (λ set. (t : ℕ) → is_among set.keys t ≡ is_among times.now t) }
{
    let mut set = BTreeSet::new(alloc);
    for t in times {
        insert_time(*t, &mut set)?;
    }
    Ok(set)
}

/// Whether a set has a time.
pub(crate) fn has_time(times: &BTreeSet<InstantTime>, t: InstantTime) -> bool
    ensures { result ≡ is_among times.now.keys t }
{
    times.contains(&t)
}
