// The files of each group of a partition.
ghost use Rattle.std.specs.Prelude.{◌≡◌, ◌++◌, ◌∷◌, [], Err, Some, None, IfOk, OnOk, ℕ, List, filter, map, option_map};
ghost use Rattle.std.specs.List.Sorted.{IsNonDecreasingBy, IsSorted};
ghost use Rattle.std.specs.Ordering.{nat_cmp};
ghost use Rattle.std.specs.Cmp.Lexicographic.{slice_cmp};
ghost use Rattle.hudi_base.specs.declared.file_group.GroupRef.{GroupRef};
ghost use Rattle.file_groups.specs.Names.{has_name};
ghost use Rattle.file_groups.specs.Orders.{IsSortedFrom};
ghost use Rattle.file_groups.specs.Slots.{group_number};
ghost use Rattle.file_groups.specs.Views.{log_part, log_parts, base_parts, view_from, AreViews, partition_of, file_partitions, base_partitions, partitions, first_other};
ghost use Rattle.file_groups.specs.declared.view_error.ViewError.TheVariants.{NoTile};

use crate::names::{has_name, sorted_names};
use crate::slots::{own_parts, sort_by_slots};
use crate::{BasePart, GroupView, LogPart, ViewError};
use file_names::{FileName, text};
use hudi_base::{GroupRef, Name, Sequence};
use key_index::Tiles;
use std::alloc::{AllocError, Global};

// ---- files of other partitions

fn partition_of(file: &FileName) -> Option<&Name>
    ensures { option_map (λ name. name.now) result ≡ partition_of file.now }
{
    match file {
        FileName::Base(group, _, _) | FileName::Log(group, _, _, _) => Some(&group.partition),
        _ => None,
    }
}

fn first_other_file<'a>(partition: &Name, files: &'a [(FileName, u64)]) -> Option<&'a Name>
    ensures { option_map (λ name. name.now) result
        ≡ first_other partition.now (file_partitions files.now) }
{
    for (file, _) in files {
        if let Some(own) = partition_of(file) {
            if own != partition {
                return Some(own);
            }
        }
    }
    None
}

fn first_other_base<'a>(partition: &Name, named: &'a [BasePart]) -> Option<&'a Name>
    ensures { option_map (λ name. name.now) result
        ≡ first_other partition.now (base_partitions named.now) }
{
    for base in named {
        if base.group.partition != *partition {
            return Some(&base.group.partition);
        }
    }
    None
}

fn first_other<'a>(
    partition: &Name,
    files: &'a [(FileName, u64)],
    named: &'a [BasePart],
) -> Option<&'a Name>
    ensures { option_map (λ name. name.now) result ≡ first_other partition.now (partitions files.now named.now) }
{
    match first_other_file(partition, files) {
        Some(other) => Some(other),
        None => first_other_base(partition, named),
    }
}

// ---- parts

fn log_part(
    alloc: Global,
    table: &Name,
    file: &FileName,
    length: u64,
) -> Result<Option<LogPart>, AllocError>
    ensures { IfOk result (λ log. log ≡ log_part table.now file.now length) }
{
    let FileName::Log(group, slice, version, _) = file else {
        return Ok(None);
    };
    match text(alloc, table, file) {
        Ok(name) => Ok(Some(LogPart {
            group: group.copy(alloc)?,
            slice: *slice,
            version: *version,
            name,
            length,
        })),
        Err(_) => Err(AllocError),
    }
}

fn push_log(
    alloc: Global,
    table: &Name,
    file: &FileName,
    length: u64,
    logs: &mut Vec<LogPart>,
) -> Result<(), AllocError>
    ensures { OnOk result (logs.new.items ≡ logs.old.items ++ log_parts table.now ((file.now, length) ∷ [])) }
{
    if let Some(log) = log_part(alloc, table, file, length)? {
        logs.push(log)?;
    }
    Ok(())
}

fn log_parts(
    alloc: Global,
    table: &Name,
    files: &[(FileName, u64)],
) -> Result<Vec<LogPart>, AllocError>
    ensures { IfOk result (λ logs. logs.items ≡ log_parts table.now files.now) }
{
    let mut logs = Vec::new(alloc);
    for (file, length) in files {
        push_log(alloc, table, file, *length, &mut logs)?;
    }
    Ok(logs)
}

fn push_base(alloc: Global, base: &BasePart, bases: &mut Vec<BasePart>) -> Result<(), AllocError>
    ensures { OnOk result (bases.new.items ≡ bases.old.items ++ base.now ∷ []) }
{
    let copied = base.copy(alloc)?;
    bases.push(copied)?;
    Ok(())
}

// The base files whose names are among these.
fn bases_among(
    alloc: Global,
    names: &[Name],
    named: &[BasePart],
) -> Result<Vec<BasePart>, AllocError>
    requires { IsSorted (slice_cmp nat_cmp) names.now }
    ensures { IfOk result (λ bases. bases.items ≡ filter (λ base. has_name names.now base.name) named.now) }
{
    let mut bases = Vec::new(alloc);
    for base in named {
        if has_name(names, &base.name) {
            push_base(alloc, base, &mut bases)?;
        }
    }
    Ok(bases)
}

fn base_parts(
    alloc: Global,
    table: &Name,
    files: &[(FileName, u64)],
    named: &[BasePart],
) -> Result<Vec<BasePart>, AllocError>
    ensures { IfOk result (λ bases. bases.items ≡ base_parts table.now files.now named.now) }
{
    let names = sorted_names(alloc, table, files)?;
    bases_among(alloc, &names, named)
}

// ---- groups

fn push_groups(
    alloc: Global,
    groups: &[GroupRef],
    all: &mut Vec<GroupRef>,
) -> Result<(), AllocError>
    ensures { OnOk result (all.new.items ≡ all.old.items ++ groups.now) }
{
    for group in groups {
        let copied = group.copy(alloc)?;
        all.push(copied)?;
    }
    Ok(())
}

fn all_groups(alloc: Global, tiles: &Tiles) -> Result<Vec<GroupRef>, AllocError>
    ensures { IfOk result (λ groups. groups.items ≡ tiles.now.groups ++ tiles.now.empty) }
{
    let mut groups = Vec::new(alloc);
    push_groups(alloc, tiles.groups(), &mut groups)?;
    push_groups(alloc, tiles.empty(), &mut groups)?;
    Ok(groups)
}

fn sort_groups(groups: &mut Vec<GroupRef>) -> Result<(), AllocError>
    ensures { OnOk result (IsSortedFrom (λ group. group.lo) groups.old.items groups.new.items) }
{
    groups.sort_by_key(|group| group.lo)
}

// The groups of a partition in the order of their first slots.
fn ordered_groups(alloc: Global, tiles: &Tiles) -> Result<Vec<GroupRef>, AllocError>
    ensures { IfOk result (λ groups. IsSortedFrom (λ group. group.lo)
        (tiles.now.groups ++ tiles.now.empty) groups.items) }
{
    let mut groups = all_groups(alloc, tiles)?;
    sort_groups(&mut groups)?;
    Ok(groups)
}

fn group_view(
    alloc: Global,
    group: GroupRef,
    bases: &[BasePart],
    logs: &[LogPart],
) -> Result<GroupView, AllocError>
    requires bases_in_order { IsNonDecreasingBy (λ base. group_number base.group) bases.now }
    requires logs_in_order { IsNonDecreasingBy (λ log. group_number log.group) logs.now }
    ensures { IfOk result (λ view. view ≡ view_from bases.now logs.now group) }
{
    let bases = own_parts(alloc, &group, bases)?;
    let logs = own_parts(alloc, &group, logs)?;
    Ok(GroupView { group, bases, logs })
}

fn group_views(
    alloc: Global,
    groups: Vec<GroupRef>,
    bases: &[BasePart],
    logs: &[LogPart],
) -> Result<Sequence<GroupView>, AllocError>
    requires bases_in_order { IsNonDecreasingBy (λ base. group_number base.group) bases.now }
    requires logs_in_order { IsNonDecreasingBy (λ log. group_number log.group) logs.now }
    ensures { IfOk result (λ views. views ≡ map (view_from bases.now logs.now) groups.items) }
{
    let mut views = Sequence::new(alloc);
    for group in groups {
        views.push(group_view(alloc, group, bases, logs)?)?;
    }
    Ok(views)
}

fn views(
    alloc: Global,
    table: &Name,
    tiles: &Tiles,
    files: &[(FileName, u64)],
    named: &[BasePart],
) -> Result<Sequence<GroupView>, AllocError>
    ensures { IfOk result (λ views. AreViews table.now tiles.now files.now named.now views) }
{
    let groups = ordered_groups(alloc, tiles)?;
    let mut bases = base_parts(alloc, table, files, named)?;
    sort_by_slots(&mut bases)?;
    let mut logs = log_parts(alloc, table, files)?;
    sort_by_slots(&mut logs)?;
    group_views(alloc, groups, &bases, &logs)
}

/// The files of each group of a partition of this table, in the order of the groups' first slots: its log files among
/// the files, and those of the named base files that are among the files by their names. Lengths of logs come from the
/// files, those of base files from the named ones. Files of groups that the partition doesn't have are passed over.
///
/// `NoTile` names the partition of the first base or log file, or else of the first named base file, that lies in
/// another partition than the groups. The cost is n log n in the number of files.
pub fn view_of(
    alloc: Global,
    table: &Name,
    tiles: &Tiles,
    files: &[(FileName, u64)],
    named: &[BasePart],
) -> Result<Sequence<GroupView>, ViewError>
    ensures views { IfOk result (λ views. AreViews table.now tiles.now files.now named.now views) }
    ensures own { OnOk result (first_other tiles.now.partition (partitions files.now named.now) ≡ None) }
    ensures refused { (partition : List ℕ) → result ≡ Err (NoTile partition)
        → first_other tiles.now.partition (partitions files.now named.now) ≡ Some partition }
{
    if let Some(other) = first_other(tiles.partition(), files, named) {
        return Err(ViewError::NoTile(other.copy(alloc)?));
    }
    let views = views(alloc, table, tiles, files, named)?;
    Ok(views)
}
