//! `hudi DIR run LANES`: runs a script of JSON lines over the table in a folder.
//!
//! It hands the folder, the standard streams and the system's clock to `hudi_run_solo` of `script_run`, whose contract
//! says what a run does.
#![tactic(auto)]

ghost use Rattle.std.specs.Prelude.{◌≢◌, [], IfOk, string_bytes};

use script_run::{OUT_OF_MEMORY, hudi_run_solo};
use std::alloc::{AllocError, Global};
use std::env;
use std::io::{self, ErrorKind};
use std::process::ExitCode;
use store_dir::{DirStore, StdinSource, StdoutSink, SystemClock};

fn main(rt: HostRuntime) -> ExitCode {
    let alloc = rt.alloc();
    // Words that aren't all texts are as good as none.
    let words = match env::args(&rt) {
        Ok(words) => words.skip(1).collect(alloc),
        Err(error) if error.kind() == ErrorKind::OutOfMemory => Err(AllocError),
        Err(_) => Ok(Vec::new(alloc)),
    };
    let Ok(mut words) = words else {
        return ExitCode::from(OUT_OF_MEMORY);
    };
    let Ok(folder) = take_folder(alloc, &mut words) else {
        return ExitCode::from(OUT_OF_MEMORY);
    };
    let store = DirStore::new(rt, folder);
    let clock = SystemClock::new(rt);
    let mut input = StdinSource::new(rt.reader());
    let mut output = StdoutSink::new(io::writer(&rt));
    let (status, _, _) = hudi_run_solo(
        alloc,
        words.as_slice(),
        store,
        clock,
        &mut input,
        &mut output,
    );
    ExitCode::from(status)
}

// Takes the folder off the words; with none it is `.`. No folder has an empty name, so words behind one are none.
fn take_folder(alloc: Global, words: &mut Vec<String>) -> Result<String, AllocError>
    ensures { IfOk result (λ folder. string_bytes folder ≢ []) }
{
    if !words.is_empty() {
        let folder = words.remove(0);
        if !folder.is_empty() {
            return Ok(folder);
        }
        words.clear();
    }
    String::from_str(alloc, ".")
}
