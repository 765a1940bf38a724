// What is synced, so that it outlives a loss of power.
use crate::calls::{Call, answer, open};
use crate::logged_files::LoggedFiles;
use crate::test_folder::{below, new_folder};
use std::fs;
use std::test::Fail;

// What a call on the store `s` in a folder does there.
fn steps(rt: &HostRuntime, folder: &String, call: &Call) -> Result<String, Fail> {
    let alloc = rt.alloc();
    let log = below(alloc, folder, "log")?;
    fs::write(rt, log.as_str(), b"".as_slice())?;
    let files = LoggedFiles {
        rt: *rt,
        folder: folder.clone()?,
    };
    let mut store = open(files, alloc, below(alloc, folder, "s")?.as_str())?;
    answer(alloc, &mut store, call)?;
    Ok(fs::read_to_string(rt, log)?)
}

#[test]
fn files_and_their_folders_are_synced(rt: HostRuntime) -> Result<(), Fail> {
    let folder = new_folder(&rt, "syncs")?;
    let calls = [
        (
            Call::Create("a/b", "1"),
            "make /s\nsync \nmake /s/.hoodie\nsync /s\nmake /s/.hoodie/.temp\nsync /s/.hoodie\n\
             write to /s/.hoodie/.temp/new\nsync /s/.hoodie/.temp/new\nrename to /s/a/b\n\
             make /s/a\nsync /s\nrename to /s/a/b\nsync /s/a\n",
        ),
        (Call::Create("a/e", ""), "sync /s/a\n"),
        (
            Call::Append("c/d", "1"),
            "make /s/c\nsync /s\nsync /s/c\nwrite to /s/c/d\nsync /s/c/d\n",
        ),
        (Call::Append("c/d", "2"), "write to /s/c/d\nsync /s/c/d\n"),
        (Call::Remove("c/d"), "remove /s/c/d\nsync /s/c\n"),
        (Call::Remove("c/d"), "remove /s/c/d\n"),
    ];
    for (call, wanted) in calls {
        let got = steps(&rt, &folder, &call)?;
        assert_eq!(rt; got.as_str(), wanted);
    }
    fs::remove_dir_all(&rt, folder)?;
    Ok(())
}
