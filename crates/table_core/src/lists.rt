// Lists that replies are made of.
ghost use Rattle.std.specs.Prelude.{◌≡◌, ◌++◌, ◌∷◌, [], IfOk, OnOk, map};
ghost use Rattle.table_core.specs.ViewTables.{part_named};
ghost use Rattle.table_history.specs.Pins.{files_of_view};

use crate::names::part_of;
use hudi_base::{Name, Sequence, Target};
use std::alloc::{AllocError, Global};
use table_history::{LogFile, Part, View};

fn push_target(
    alloc: Global,
    target: &Target,
    targets: &mut Sequence<Target>,
) -> Result<(), AllocError>
    ensures { OnOk result (targets.new ≡ targets.old ++ target.now ∷ []) }
{
    let copied = target.copy(alloc)?;
    targets.push(copied)
}

// A second owner of the same targets.
pub(crate) fn copy_targets(
    alloc: Global,
    targets: &[Target],
) -> Result<Sequence<Target>, AllocError>
    ensures { IfOk result (λ copied. copied ≡ targets.now) }
{
    let mut copied = Sequence::new(alloc);
    for target in targets {
        push_target(alloc, target, &mut copied)?;
    }
    Ok(copied)
}

fn push_log(
    alloc: Global,
    table: &Name,
    slice: &Target,
    log: &LogFile,
    parts: &mut Sequence<Part>,
) -> Result<(), AllocError>
    ensures { OnOk result (parts.new ≡ parts.old ++ part_named table.now slice.now log.now ∷ []) }
{
    let part = part_of(alloc, table, slice, log)?;
    parts.push(part)
}

// The logs of a slice as parts of a view.
pub(crate) fn parts_of(
    alloc: Global,
    table: &Name,
    slice: &Target,
    logs: &[LogFile],
) -> Result<Sequence<Part>, AllocError>
    ensures { IfOk result (λ parts. parts ≡ map (part_named table.now slice.now) logs.now) }
{
    let mut parts = Sequence::new(alloc);
    for log in logs {
        push_log(alloc, table, slice, log, &mut parts)?;
    }
    Ok(parts)
}

fn push_part(alloc: Global, part: &Part, parts: &mut Sequence<Part>) -> Result<(), AllocError>
    ensures { OnOk result (parts.new ≡ parts.old ++ part.now ∷ []) }
{
    let copied = Part {
        name: part.name.copy(alloc)?,
        length: part.length,
        base: part.base,
    };
    parts.push(copied)
}

fn push_parts(alloc: Global, from: &[Part], parts: &mut Sequence<Part>) -> Result<(), AllocError>
    ensures { OnOk result (parts.new ≡ parts.old ++ from.now) }
{
    for part in from {
        push_part(alloc, part, parts)?;
    }
    Ok(())
}

// The files of a view, in the order of their numbers.
pub(crate) fn files_of_view(alloc: Global, view: &View) -> Result<Sequence<Part>, AllocError>
    ensures { IfOk result (λ parts. parts ≡ files_of_view view.now) }
{
    let mut parts = Sequence::new(alloc);
    for group in view.groups.as_slice() {
        push_parts(alloc, group.parts.as_slice(), &mut parts)?;
    }
    Ok(parts)
}
