// The files of a timeline, in the order of their names.
ghost use Rattle.std.specs.Prelude.{◌≡◌, ◌≤◌, ◌<◌, ◌+◌, ◌*◌, ◌↔◌, ◌∷◌, ◌++◌, [], ◌^◌, IfOk, OnOk, IsTrue};
ghost use Rattle.std.specs.List.Sorted.{IsNonDecreasingBy};
ghost use Rattle.file_names.specs.declared.file_name.Action.{Action};
ghost use Rattle.file_names.specs.declared.file_name.State.{State};
ghost use Rattle.file_names.specs.declared.file_name.FileName.TheVariants.{Instant};
ghost use Rattle.hudi_base.specs.InstantTime.{IsTime};
ghost use Rattle.instant_line.specs.NameOrder.{action_rank, state_rank, name_number, entry_number};
ghost use Rattle.instant_line.specs.NameOrder.{AreEntries, HaveEntries, HasBetween};

use file_names::{Action, FileName, State};
use hudi_base::InstantTime;
use std::alloc::{AllocError, Global};

fn action_rank(action: Action) -> u64
    ensures value { result ≡ action_rank action }
    ensures range { result < 5 }
{
    match action {
        Action::Clean => 0,
        Action::Compaction => 1,
        Action::Delta => 2,
        Action::Replace => 3,
        Action::Rollback => 4,
    }
}

fn state_rank(state: State) -> u64
    ensures value { result ≡ state_rank state }
    ensures range { result < 3 }
{
    match state {
        State::Completed => 0,
        State::Inflight => 1,
        State::Requested => 2,
    }
}

// The number of a file of the timeline: names in order have rising numbers.
#[tactic(auto, unfolding(crate::specs::NameOrder::name_number))]
pub(crate) fn name_number(t: InstantTime, action: Action, state: State) -> u64
    ensures value { result ≡ name_number t action state }
    ensures time { IsTime t }
    ensures range { result < 2 ^ 60 }
{
    t.ms() * 15 + (action_rank(action) * 3 + state_rank(state))
}

fn entry_number(entry: &(InstantTime, Action, State)) -> u64
    ensures { result ≡ entry_number entry.now }
{
    name_number(entry.0, entry.1, entry.2)
}

fn push_entry(
    name: &FileName,
    entries: &mut Vec<(InstantTime, Action, State)>,
) -> Result<(), AllocError>
    ensures { OnOk result (HaveEntries (name.now ∷ []) entries.old.items entries.new.items) }
{
    if let FileName::Instant(t, action, state) = name {
        entries.push((*t, *action, *state))?;
    }
    Ok(())
}

// The files of the timeline among the names, in the order of their names.
pub(crate) fn entries_of(
    alloc: Global,
    names: &[FileName],
) -> Result<Vec<(InstantTime, Action, State)>, AllocError>
    ensures same { IfOk result (λ entries. AreEntries entries.items names.now) }
    ensures order { IfOk result (λ entries. IsNonDecreasingBy entry_number entries.items) }
{
    let mut entries = Vec::new(alloc);
    for name in names {
        push_entry(name, &mut entries)?;
    }
    entries.sort_by_key(entry_number)?;
    Ok(entries)
}

// Whether there is a file with a number from `low` up to `high`.
pub(crate) fn has_between(entries: &[(InstantTime, Action, State)], low: u64, high: u64) -> bool
    requires { IsNonDecreasingBy entry_number entries.now }
    ensures { IsTrue result ↔ HasBetween entries.now low high }
{
    let place = entries.partition_point(|entry| entry_number(entry) < low);
    place < entries.len() && entry_number(&entries[place]) < high
}
