// A folder as a store.
use crate::calls::{Call, answer, open};
use crate::test_folder::{absent_folder, below, new_folder};
use hudi_base::Store;
use std::fs;
use std::process::Abort;
use std::rt::Files;
use std::test::Fail;

// Does calls on the store of a folder, and compares the answers. Says how many faults the store counted.
fn expect<R: Files + AllocGlobal + Clone + Drop + Abort>(
    rt: &R,
    folder: &str,
    calls: &[(Call, &str)],
) -> Result<u64, Fail> {
    let alloc = rt.alloc();
    let mut store = open(rt.clone()?, alloc, folder)?;
    let mut number = 0u64;
    for (call, wanted) in calls {
        let got = answer(alloc, &mut store, call)?;
        assert_eq!(rt; got.as_str(), *wanted, "call {number}");
        number = number.wrapping_add(1);
    }
    Ok(store.faults())
}

// Does calls on the store of an absent folder, as `expect` does, and removes the folder.
fn expect_from_nothing<R: Files + AllocGlobal + Clone + Drop + Abort>(
    rt: &R,
    folder: String,
    calls: &[(Call, &str)],
) -> Result<u64, Fail> {
    let faults = expect(rt, folder.as_str(), calls)?;
    fs::remove_dir_all(rt, folder)?;
    Ok(faults)
}

const FILES: [(Call, &str); 28] = [
    (Call::List, ""),
    (Call::Read("a", 0, 9), "Absent"),
    (Call::Remove("a"), "Absent"),
    (Call::Create("a", "12345"), "Created"),
    (Call::Create("a", "6"), "Exists"),
    (Call::Read("a", 0, 9), "12345"),
    (Call::Read("a", 0, u64::MAX), "12345"),
    (Call::Read("a", 1, 3), "234"),
    (Call::Read("a", 3, 3), "45"),
    (Call::Read("a", 2, 0), ""),
    (Call::Read("a", 5, 1), ""),
    (Call::Read("a", u64::MAX, u64::MAX), ""),
    (Call::Append("a", "6"), "Added"),
    (Call::Append("a", "7"), "Added"),
    (Call::Read("a", 0, 9), "1234567"),
    (Call::Append("b/c/d", "x"), "Added"),
    (Call::Read("b/c/d", 0, 9), "x"),
    (Call::Create("b/e/f", ""), "Created"),
    (Call::Remove("a"), "Removed"),
    (Call::Read("a", 0, 9), "Absent"),
    (Call::Remove("a"), "Absent"),
    (Call::Append("a", "9"), "Added"),
    (Call::Append("a", "0"), "Added"),
    (Call::Read("a", 0, 9), "90"),
    (Call::Remove("a"), "Removed"),
    (Call::Create("a", "8"), "Created"),
    (Call::Read("a", 0, 9), "8"),
    (Call::List, "a 1, b/c/d 1, b/e/f 0, "),
];

#[test]
fn files_are_made_read_grown_and_removed(rt: HostRuntime) -> Result<(), Fail> {
    let folder = absent_folder(&rt, "files")?;
    assert_eq!(rt; expect_from_nothing(&rt, folder, &FILES)?, 0);
    Ok(())
}

const ORDER: [(Call, &str); 10] = [
    (Call::Create("t/b", "12"), "Created"),
    (Call::Create("t.b", "1"), "Created"),
    (Call::Create("t-b", "123"), "Created"),
    (Call::Create("t/.hoodie/.temp/x", ""), "Created"),
    (Call::Create(".hoodie/x", ""), "Created"),
    (Call::Append(".hoodie/.temp/x", "1"), "Added"),
    (Call::Append(".hoodie/.temp/y/z", "1"), "Added"),
    (Call::Append(".hoodie/.temporary", ""), "Added"),
    (Call::Create("t.b", ""), "Exists"),
    (
        Call::List,
        ".hoodie/.temporary 0, .hoodie/x 0, t-b 3, t.b 1, t/.hoodie/.temp/x 0, t/b 2, ",
    ),
];

#[test]
fn a_listing_is_in_name_order_and_without_temporary_files(rt: HostRuntime) -> Result<(), Fail> {
    let folder = absent_folder(&rt, "order")?;
    assert_eq!(rt; expect_from_nothing(&rt, folder, &ORDER)?, 0);
    Ok(())
}

const FAILURES: [(Call, &str); 11] = [
    (Call::Create("a/b", "1"), "Created"),
    (Call::Read("a", 0, 1), "Failed"),
    (Call::Create("a", "1"), "Exists"),
    (Call::Append("a", "1"), "Failed"),
    (Call::Remove("a"), "Failed"),
    (Call::Read("a/b/c", 0, 1), "Failed"),
    (Call::Create("a/b/c", "1"), "Failed"),
    (Call::Append("a/b/c", "1"), "Failed"),
    (Call::Remove("a/b/c"), "Failed"),
    (Call::Create("\0", "1"), "Failed"),
    (Call::List, "a/b 1, "),
];

#[test]
fn failures_are_counted(rt: HostRuntime) -> Result<(), Fail> {
    let folder = absent_folder(&rt, "failures")?;
    assert_eq!(rt; expect_from_nothing(&rt, folder, &FAILURES)?, 8);
    Ok(())
}

#[test]
fn a_file_in_place_of_the_folder_fails_to_list(rt: HostRuntime) -> Result<(), Fail> {
    let folder = new_folder(&rt, "no_folder")?;
    let file = below(rt.alloc(), &folder, "file")?;
    fs::write(&rt, file.as_str(), b"1".as_slice())?;
    assert_eq!(rt; expect(&rt, file.as_str(), &[(Call::List, "Failed")])?, 1);
    fs::remove_dir_all(&rt, folder)?;
    Ok(())
}
