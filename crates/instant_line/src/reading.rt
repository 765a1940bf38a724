// The timeline that names are.
ghost use Rattle.std.specs.Prelude.{◌≡◌, ◌↔◌, ◌<◌, ℕ, IsTrue, IfOk, OnOk, Err, length};
ghost use Rattle.std.specs.List.Sorted.{IsNonDecreasingBy};
ghost use Rattle.file_names.specs.declared.file_name.Action.{Action};
ghost use Rattle.file_names.specs.declared.file_name.State.{State};
ghost use Rattle.instant_line.specs.Building.{IsNewTime, AreSound, AreItsFiles};
ghost use Rattle.instant_line.specs.LineFiles.{AreFilesOf, BreaksAt, BreaksFirst};
ghost use Rattle.instant_line.specs.NameOrder.{entry_number};
ghost use Rattle.instant_line.specs.declared.line_error.LineError.TheVariants.{BrokenTimeline};

use crate::entries::entries_of;
use crate::first_break::first_break;
use crate::{LineError, Timeline};
use file_names::{Action, FileName, State};
use hudi_base::InstantTime;
use std::alloc::{AllocError, Global};

fn is_new_time(entries: &[(InstantTime, Action, State)], i: usize) -> bool
    requires { i < length entries.now }
    ensures { IsTrue result ↔ IsNewTime entries.now i }
{
    i == 0 || entries[i - 1].0.ms() != entries[i].0.ms()
}

// The first file of each time tells how far its instant is.
fn line_of_entries(
    alloc: Global,
    entries: &[(InstantTime, Action, State)],
) -> Result<Timeline, AllocError>
    requires order { IsNonDecreasingBy entry_number entries.now }
    requires sound { AreSound entries.now }
    ensures { IfOk result (λ held. AreItsFiles entries.now held.line) }
{
    let mut line = Timeline::new(alloc);
    for (i, (t, action, state)) in entries.iter().enumerate() {
        if is_new_time(entries, i) {
            line.push(*t, *action, *state)?;
        }
    }
    Ok(line)
}

/// The timeline whose files' names these are; names of other files are passed over. They are one exactly where no
/// file's earlier state lacks its own file and no time has files of two actions.
pub fn from_names(alloc: Global, names: &[FileName]) -> Result<Timeline, LineError>
    ensures line { IfOk result (λ held. AreFilesOf held.line names.now) }
    ensures whole { OnOk result ((i t : ℕ) (action : Action) (state : State) → ¬ BreaksAt names.now i t action state) }

    ensures broken { (i : ℕ) → result ≡ Err (BrokenTimeline i) → BreaksFirst names.now i }
{
    let entries = entries_of(alloc, names)?;
    if let Some(i) = first_break(&entries, names) {
        return Err(LineError::BrokenTimeline(i));
    }
    Ok(line_of_entries(alloc, &entries)?)
}
