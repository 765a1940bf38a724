// Second owners of replies.
ghost use Rattle.std.specs.Prelude.{◌≡◌, ◌++◌, ◌∷◌, [], IfOk, OnOk};
ghost use Rattle.hudi_base.specs.InstantTime.{IsTime};
ghost use Rattle.table_board.specs.Outcomes.{HasTime};

use hudi_base::{Bytes, InstantTime, Sequence, Target};
use std::alloc::{AllocError, Global};
use table_history::{GroupParts, Part, Reply, View};

fn push_target(
    alloc: Global,
    target: &Target,
    targets: &mut Sequence<Target>,
) -> Result<(), AllocError>
    ensures { OnOk result (targets.new ≡ targets.old ++ target.now ∷ []) }
{
    let copied = target.copy(alloc)?;
    targets.push(copied)
}

fn copy_targets(alloc: Global, targets: &[Target]) -> Result<Sequence<Target>, AllocError>
    ensures { IfOk result (λ copied. copied ≡ targets.now) }
{
    let mut copied = Sequence::new(alloc);
    for target in targets {
        push_target(alloc, target, &mut copied)?;
    }
    Ok(copied)
}

fn push_part(alloc: Global, part: &Part, parts: &mut Sequence<Part>) -> Result<(), AllocError>
    ensures { OnOk result (parts.new ≡ parts.old ++ part.now ∷ []) }
{
    let copied = Part {
        name: part.name.copy(alloc)?,
        length: part.length,
        base: part.base,
    };
    parts.push(copied)
}

fn copy_parts(alloc: Global, parts: &[Part]) -> Result<Sequence<Part>, AllocError>
    ensures { IfOk result (λ copied. copied ≡ parts.now) }
{
    let mut copied = Sequence::new(alloc);
    for part in parts {
        push_part(alloc, part, &mut copied)?;
    }
    Ok(copied)
}

fn push_group(
    alloc: Global,
    group: &GroupParts,
    groups: &mut Sequence<GroupParts>,
) -> Result<(), AllocError>
    ensures { OnOk result (groups.new ≡ groups.old ++ group.now ∷ []) }
{
    let copied = GroupParts {
        group: group.group.copy(alloc)?,
        parts: copy_parts(alloc, group.parts.as_slice())?,
    };
    groups.push(copied)
}

fn copy_groups(alloc: Global, groups: &[GroupParts]) -> Result<Sequence<GroupParts>, AllocError>
    ensures { IfOk result (λ copied. copied ≡ groups.now) }
{
    let mut copied = Sequence::new(alloc);
    for group in groups {
        push_group(alloc, group, &mut copied)?;
    }
    Ok(copied)
}

fn copy_view(alloc: Global, view: &View) -> Result<View, AllocError>
    ensures { IfOk result (λ copied. copied ≡ view.now) }
{
    Ok(View {
        pin: view.pin,
        t: view.t,
        groups: copy_groups(alloc, view.groups.as_slice())?,
        completed: Sequence::from_vec(Vec::from_slice(alloc, view.completed.as_slice())?),
    })
}

fn same_time(t: InstantTime) -> InstantTime
    ensures same { result ≡ t }
    ensures time { IsTime result }
{
    t
}

/// A second owner of the same reply. The only error is want of memory.
pub(crate) fn copy_reply(alloc: Global, reply: &Reply) -> Result<Reply, AllocError>
    ensures same { IfOk result (λ copied. copied ≡ reply.now) }
    ensures time { IfOk result HasTime }
{
    match reply {
        Reply::Began(t) => Ok(Reply::Began(same_time(*t))),
        Reply::Entered(targets) => Ok(Reply::Entered(copy_targets(alloc, targets.as_slice())?)),
        Reply::Placed(version, at) => Ok(Reply::Placed(*version, *at)),
        Reply::Completed(t) => Ok(Reply::Completed(*t)),
        Reply::Pinned(view) => Ok(Reply::Pinned(copy_view(alloc, view)?)),
        Reply::Piece(bytes) => Ok(Reply::Piece(bytes.copy(alloc)?)),
        Reply::NotCompleted(t) => Ok(Reply::NotCompleted(*t)),
        Reply::TimeOver => Ok(Reply::TimeOver),
        Reply::Done => Ok(Reply::Done),
        Reply::Fault => Ok(Reply::Fault),
        Reply::Damaged(name, cause) => Ok(Reply::Damaged(name.copy(alloc)?, *cause)),
        Reply::Memory => Ok(Reply::Memory),
    }
}
