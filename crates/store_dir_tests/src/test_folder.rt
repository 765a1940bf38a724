// A folder for one test.
use std::alloc::Global;
use std::test::Fail;
use std::{env, fs, process};

/// The path of a folder that isn't there yet, for the test of this name.
pub fn absent_folder(rt: &HostRuntime, test: &str) -> Result<String, Fail> {
    let above = env::temp_dir(rt)?;
    let (above, id) = (above.as_str(), process::id(rt.process()));
    Ok(format!(in rt.alloc(); "{above}/store_dir_{test}_{id}")?)
}

/// The path of a new and empty folder, for the test of this name.
pub fn new_folder(rt: &HostRuntime, test: &str) -> Result<String, Fail> {
    let folder = absent_folder(rt, test)?;
    fs::create_dir(rt, folder.as_str())?;
    Ok(folder)
}

/// A path below a folder.
pub fn below(alloc: Global, folder: &String, name: &str) -> Result<String, Fail> {
    Ok(format!(in alloc; "{folder}/{name}")?)
}
