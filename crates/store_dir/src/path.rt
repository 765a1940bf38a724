// Paths of files and folders, with `/` between their parts.
ghost use Rattle.std.specs.Prelude.{◌≡◌, ◌≢◌, ◌++◌, [], codes, IfOk, string_bytes};

use std::alloc::{AllocError, Global};

/// The path of a name below a folder. The only error is want of memory.
pub fn path_of(alloc: Global, folder: &str, name: &str) -> Result<String, AllocError>
    ensures { IfOk result (λ path. string_bytes path ≡ folder.now ++ codes "/" ++ name.now) }
{
    let len = folder.len().saturating_add(name.len()).saturating_add(1);
    let mut path = String::with_capacity(alloc, len)?;
    path.push_str(folder)?;
    path.push('/')?;
    path.push_str(name)?;
    Ok(path)
}

/// The name of what lies in a folder of the store, whose own name is empty. The only error is want of memory.
pub fn name_in(alloc: Global, folder: &str, entry: &str) -> Result<String, AllocError>
    ensures first { folder.now ≡ [] → IfOk result (λ name. string_bytes name ≡ entry.now) }
    ensures below { folder.now ≢ [] → IfOk result (λ name. string_bytes name ≡ folder.now ++ codes "/" ++ entry.now) }
{
    if folder.is_empty() {
        return String::from_str(alloc, entry);
    }
    path_of(alloc, folder, entry)
}

/// The folder that holds a file or a folder.
pub fn folder_of(path: &str) -> &str {
    match path.rsplit_once('/') {
        Some(("", _)) => "/",
        Some((folder, _)) => folder,
        None => ".",
    }
}
