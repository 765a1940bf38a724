// Times in order.
ghost use Rattle.std.specs.Prelude.{◌≡◌, ◌≤◌, ◌<◌, ◌++◌, ◌∷◌, length, take, drop, reverse, filter, vec_len, vec_capacity, nat_le, ◌==◌, IfOk};
ghost use Rattle.std.specs.List.{list_any};
ghost use Rattle.table_history.specs.Instants.{greatest};
ghost use Rattle.table_history.specs.Times.{insert_time};

use hudi_base::{InstantTime, Sequence};
use std::alloc::{AllocError, Global};

// The place of a time among times that are in order, sought from the end: the times that it passes are those after it.
fn place_of(times: &[InstantTime], t: InstantTime) -> usize
    ensures within { result ≤ length times.now }
    ensures place { reverse (take result times.now ++ t ∷ drop result times.now) ≡ insert_time t (reverse times.now) }
{
    let mut i = times.len();
    while i > 0 && t.ms() <= times[i - 1].ms() {
        i -= 1;
    }
    i
}

// Puts a time in its place. It takes no memory.
pub(crate) fn insert_time(times: &mut Vec<InstantTime>, t: InstantTime)
    requires { vec_len times.old < vec_capacity times.old }
    ensures { reverse times.new.items ≡ insert_time t (reverse times.old.items) }
{
    let place = place_of(times, t);
    match times.insert(place, t) {
        Ok(()) => {}
        Err(_) => unreachable!(),
    }
}

// The greatest of times that are in order.
pub(crate) fn greatest(times: &[InstantTime]) -> Option<InstantTime>
    ensures { result ≡ greatest (reverse times.now) }
{
    times.last().copied()
}

// Whether a time is one of them.
pub(crate) fn is_among(times: &[InstantTime], t: InstantTime) -> bool
    ensures { result ≡ list_any (λ u. u == t) times.now }
{
    times.iter().any(|u| *u == t)
}

// Those up to a time.
pub(crate) fn up_to(
    alloc: Global,
    times: &[InstantTime],
    t: InstantTime,
) -> Result<Sequence<InstantTime>, AllocError>
    ensures { IfOk result (λ earlier. earlier ≡ filter (λ u. nat_le u t) times.now) }
{
    let earlier = times.iter().copied().filter(|u| *u <= t).collect(alloc)?;
    Ok(Sequence::from_vec(earlier))
}
