// What stands behind the time in the name of a file of the timeline.
ghost use Rattle.std.specs.Prelude.{◌≡◌};
ghost use Rattle.file_names.specs.FileName.{instant_ending};

use crate::{Action, State};

pub(crate) fn ending(action: Action, state: State) -> &'static str
    ensures { result.now ≡ instant_ending action state }
{
    match (action, state) {
        (Action::Delta, State::Requested) => ".deltacommit.requested",
        (Action::Delta, State::Inflight) => ".deltacommit.inflight",
        (Action::Delta, State::Completed) => ".deltacommit",
        (Action::Compaction, State::Requested) => ".compaction.requested",
        (Action::Compaction, State::Inflight) => ".compaction.inflight",
        (Action::Compaction, State::Completed) => ".commit",
        (Action::Replace, State::Requested) => ".replacecommit.requested",
        (Action::Replace, State::Inflight) => ".replacecommit.inflight",
        (Action::Replace, State::Completed) => ".replacecommit",
        (Action::Clean, State::Requested) => ".clean.requested",
        (Action::Clean, State::Inflight) => ".clean.inflight",
        (Action::Clean, State::Completed) => ".clean",
        (Action::Rollback, State::Requested) => ".rollback.requested",
        (Action::Rollback, State::Inflight) => ".rollback.inflight",
        (Action::Rollback, State::Completed) => ".rollback",
    }
}
