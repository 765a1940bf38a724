// Which names files have.
ghost use Rattle.std.specs.Prelude.{◌≡◌, ◌++◌, ◌∷◌, [], IfOk, OnOk};
ghost use Rattle.std.specs.Ordering.{nat_cmp};
ghost use Rattle.std.specs.Cmp.Lexicographic.{slice_cmp};
ghost use Rattle.std.specs.List.{filter_map};
ghost use Rattle.std.specs.List.Sorted.{IsSorted};
ghost use Rattle.file_groups.specs.Names.{name_if_named, names_of, has_name, IsNameTable};

use file_names::{FileName, text};
use hudi_base::Name;
use std::alloc::{AllocError, Global};

fn name_if_named(alloc: Global, table: &Name, file: &FileName) -> Result<Option<Name>, AllocError>
    ensures { IfOk result (λ name. name ≡ name_if_named table.now file.now) }
{
    if let FileName::Other = file {
        return Ok(None);
    }
    match text(alloc, table, file) {
        Ok(name) => Ok(Some(name)),
        Err(_) => Err(AllocError),
    }
}

fn push_name(
    alloc: Global,
    table: &Name,
    file: &FileName,
    names: &mut Vec<Name>,
) -> Result<(), AllocError>
    ensures { OnOk result (names.new.items ≡ names.old.items ++ filter_map (name_if_named table.now) (file.now ∷ [])) }
{
    if let Some(name) = name_if_named(alloc, table, file)? {
        names.push(name)?;
    }
    Ok(())
}

fn names_of(alloc: Global, table: &Name, files: &[(FileName, u64)]) -> Result<Vec<Name>, AllocError>
    ensures { IfOk result (λ names. names.items ≡ names_of table.now files.now) }
{
    let mut names = Vec::new(alloc);
    for (file, _) in files {
        push_name(alloc, table, file, &mut names)?;
    }
    Ok(names)
}

// The names of the files, in order.
pub(crate) fn sorted_names(
    alloc: Global,
    table: &Name,
    files: &[(FileName, u64)],
) -> Result<Vec<Name>, AllocError>
    ensures { IfOk result (λ names. IsNameTable table.now files.now names.items) }
{
    let mut names = names_of(alloc, table, files)?;
    names.sort()?;
    Ok(names)
}

// Whether names in order have this one among them.
pub(crate) fn has_name(names: &[Name], name: &Name) -> bool
    requires { IsSorted (slice_cmp nat_cmp) names.now }
    ensures { result ≡ has_name names.now name.now }
{
    names.binary_search(name).is_ok()
}
