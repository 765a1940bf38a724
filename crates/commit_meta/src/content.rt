// What the files of the timeline hold, by the action and the state that they mark.
ghost use Rattle.std.specs.Prelude.{◌≡◌, map};
ghost use Rattle.commit_meta.specs.Metadata.{content_of, known_members};

use file_names::{Action, State};

// The kinds of objects in files of the timeline.
#[derive(Clone, Copy)]
pub(crate) enum Content {
    Claims,
    Delta,
    Compact,
    Bases,
    Cluster,
    Replaced,
    Clean,
    Cleaned,
    Rollback,
    RolledBack,
}

// The object that a file holds; none where it has no bytes.
pub(crate) fn content_of(action: Action, state: State) -> Option<Content>
    ensures { result ≡ content_of action state }
{
    match (action, state) {
        (Action::Delta, State::Requested) => None,
        (Action::Delta, State::Inflight) => Some(Content::Claims),
        (Action::Delta, State::Completed) => Some(Content::Delta),
        (Action::Compaction, State::Requested) => Some(Content::Compact),
        (Action::Compaction, State::Completed) => Some(Content::Bases),
        (Action::Replace, State::Requested) => Some(Content::Cluster),
        (Action::Replace, State::Completed) => Some(Content::Replaced),
        (Action::Clean, State::Requested) => Some(Content::Clean),
        (Action::Clean, State::Completed) => Some(Content::Cleaned),
        (Action::Rollback, State::Requested) => Some(Content::Rollback),
        (Action::Rollback, State::Completed) => Some(Content::RolledBack),
        (_, State::Inflight) => None,
    }
}

// The names of an object's members, in byte order.
pub(crate) fn known_members(content: Content) -> &'static [&'static str]
    ensures { map (λ name. name.now) result.now ≡ known_members content }
{
    match content {
        Content::Claims => &["groups"],
        Content::Delta => &["checkpoint", "groups"],
        Content::Compact => &["groups"],
        Content::Bases => &["bases"],
        Content::Cluster => &["from", "order", "to"],
        Content::Replaced => &["bases", "replaced"],
        Content::Clean => &["earliest", "files"],
        Content::Cleaned => &["removed"],
        Content::Rollback => &["files", "groups", "kind", "target"],
        Content::RolledBack => &["target"],
    }
}
