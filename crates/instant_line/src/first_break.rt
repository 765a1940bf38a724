// The first name, in name order, that breaks a timeline.
ghost use Rattle.std.specs.Prelude.{◌≡◌, ◌↔◌, ◌<◌, ℕ, IsTrue, MatchOption, length};
ghost use Rattle.std.specs.List.{Contains};
ghost use Rattle.std.specs.List.Sorted.{IsNonDecreasingBy};
ghost use Rattle.file_names.specs.declared.file_name.Action.{Action};
ghost use Rattle.file_names.specs.declared.file_name.State.{State};
ghost use Rattle.file_names.specs.declared.file_name.FileName.TheVariants.{Instant};
ghost use Rattle.instant_line.specs.LineFiles.{Breaks, BreaksAt, BreaksFirst, LacksEarlier, ComesSecond};
ghost use Rattle.instant_line.specs.NameOrder.{AreEntries, entry_number, name_number};
ghost use Rattle.instant_line.specs.FirstBreak.{IsBreak, IsFirst, earlier};

use crate::entries::{has_between, name_number};
use file_names::{Action, FileName, State};
use hudi_base::InstantTime;

fn has(
    entries: &[(InstantTime, Action, State)],
    t: InstantTime,
    action: Action,
    state: State,
) -> bool
    requires { IsNonDecreasingBy entry_number entries.now }
    ensures { IsTrue result ↔ Contains entries.now (t, action, state) }
{
    let number = name_number(t, action, state);
    has_between(entries, number, number + 1)
}

fn lacks_earlier(
    entries: &[(InstantTime, Action, State)],
    t: InstantTime,
    action: Action,
    state: State,
) -> bool
    requires { IsNonDecreasingBy entry_number entries.now }
    ensures { IsTrue result ↔ LacksEarlier (λ u other at. Contains entries.now (u, other, at)) t action state }
{
    match state {
        State::Requested => false,
        State::Inflight => !has(entries, t, action, State::Requested),
        State::Completed => !has(entries, t, action, State::Inflight),
    }
}

fn comes_second(
    entries: &[(InstantTime, Action, State)],
    t: InstantTime,
    action: Action,
    state: State,
) -> bool
    requires { IsNonDecreasingBy entry_number entries.now }
    ensures { IsTrue result ↔ ComesSecond (λ u other at. Contains entries.now (u, other, at)) t action state }
{
    let first = name_number(t, Action::Clean, State::Completed);
    let own = name_number(t, action, State::Completed);
    has_between(entries, first, own)
}

fn breaks(
    entries: &[(InstantTime, Action, State)],
    t: InstantTime,
    action: Action,
    state: State,
) -> bool
    requires { IsNonDecreasingBy entry_number entries.now }
    ensures { IsTrue result ↔ Breaks (λ u other at. Contains entries.now (u, other, at)) t action state }
{
    lacks_earlier(entries, t, action, state) || comes_second(entries, t, action, state)
}

// The number of a name that breaks the timeline.
fn break_number(entries: &[(InstantTime, Action, State)], name: &FileName) -> Option<u64>
    requires { IsNonDecreasingBy entry_number entries.now }
    ensures { IsBreak entries.now name.now result }
{
    let FileName::Instant(t, action, state) = name else {
        return None;
    };
    if !breaks(entries, *t, *action, *state) {
        return None;
    }
    Some(name_number(*t, *action, *state))
}

// The first break so far, where one is found at a place behind.
fn earlier(first: Option<(usize, u64)>, i: usize, found: Option<u64>) -> Option<(usize, u64)>
    ensures { result ≡ earlier first i found }
{
    match (first, found) {
        (_, None) => first,
        (Some((_, least)), Some(number)) if least <= number => first,
        (_, Some(number)) => Some((i, number)),
    }
}

fn first_among(entries: &[(InstantTime, Action, State)], names: &[FileName]) -> Option<(usize, u64)>
    requires { IsNonDecreasingBy entry_number entries.now }
    ensures { IsFirst entries.now names.now (length names.now) result }
{
    let mut first = None;
    for (i, name) in names.iter().enumerate() {
        first = earlier(first, i, break_number(entries, name));
    }
    first
}

/// The place of the first name that breaks the timeline. The entries are its files among the names.
pub(crate) fn first_break(
    entries: &[(InstantTime, Action, State)],
    names: &[FileName],
) -> Option<usize>
    requires order { IsNonDecreasingBy entry_number entries.now }
    requires same { AreEntries entries.now names.now }
    ensures { MatchOption result
        ((i t : ℕ) (action : Action) (state : State) → ¬ BreaksAt names.now i t action state)
        (λ i. BreaksFirst names.now i) }
{
    match first_among(entries, names) {
        Some((i, _)) => Some(i),
        None => None,
    }
}
