// What a store in memory answers and keeps, as tables of calls.
use hudi_base::{Added, Bytes, Fetched, Gone, Listed, Made, Name, Sequence, Store};
use std::alloc::{AllocError, Global};
use std::test::Fail;
use store_mem::MemStore;

// A changing call with its name, its bytes and the answer that it must give; or a new plan of failures, with the
// numbers of the calls that are to fail and the length of the prefix that a failing append leaves.
#[derive(Clone, Copy)]
enum Step<'a> {
    Create(&'a str, &'a str, Made),
    Append(&'a str, &'a str, Added),
    Remove(&'a str, Gone),
    Plan(&'a [u64], u64),
}

// A name and a text.
type File<'a> = (&'a str, &'a str);

// How many changing calls, operations and failures there were.
type Counts = (u64, u64, u64);

// Whether a call gives its answer.
fn is_answered(alloc: Global, store: &mut MemStore, step: &Step<'_>) -> Result<bool, AllocError> {
    match *step {
        Step::Create(name, text, answer) => {
            let name = Name::from_text(alloc, name)?;
            Ok(store.create(alloc, &name, text.as_bytes()) == answer)
        }
        Step::Append(name, text, answer) => {
            let name = Name::from_text(alloc, name)?;
            Ok(store.append(alloc, &name, text.as_bytes()) == answer)
        }
        Step::Remove(name, answer) => {
            let name = Name::from_text(alloc, name)?;
            Ok(store.remove(alloc, &name) == answer)
        }
        Step::Plan(failing, prefix) => {
            let failing = Sequence::from_vec(Vec::from_slice(alloc, failing)?);
            store.plan_failures(failing, prefix);
            Ok(true)
        }
    }
}

// Whether each call gives its answer, in order.
fn all_are_answered(
    alloc: Global,
    store: &mut MemStore,
    steps: &[Step<'_>],
) -> Result<bool, AllocError> {
    for step in steps {
        if !is_answered(alloc, store, step)? {
            return Ok(false);
        }
    }
    Ok(true)
}

// Whether the file has these bytes.
fn has_file(alloc: Global, store: &MemStore, &(name, text): &File<'_>) -> Result<bool, AllocError> {
    let name = Name::from_text(alloc, name)?;
    Ok(match store.file(&name) {
        Some(bytes) => bytes == text.as_bytes(),
        None => false,
    })
}

// Whether the listing has these files with their sizes, in this order.
fn lists(alloc: Global, store: &mut MemStore, files: &[File<'_>]) -> bool {
    match store.list(alloc) {
        Listed::Files(sizes) => {
            sizes.len() == files.len()
                && sizes.as_slice().iter().zip(files).all(|(file, (name, text))| {
                    file.name.as_slice() == name.as_bytes() && file.size == text.len() as u64
                })
        }
        _ => false,
    }
}

// Whether the files are these, in this order.
fn has_files(alloc: Global, store: &mut MemStore, files: &[File<'_>]) -> Result<bool, AllocError> {
    for file in files {
        if !has_file(alloc, store, file)? {
            return Ok(false);
        }
    }
    Ok(store.file_count() == files.len() && lists(alloc, store, files))
}

// What the store has counted after these calls, where each gives its answer and the files then are these.
fn counts_after(
    alloc: Global,
    mut store: MemStore,
    steps: &[Step<'_>],
    files: &[File<'_>],
) -> Result<Option<Counts>, AllocError> {
    let answered = all_are_answered(alloc, &mut store, steps)?;
    if !answered || !has_files(alloc, &mut store, files)? {
        return Ok(None);
    }
    Ok(Some((store.calls(), store.done(), store.faults())))
}

fn failing_store(alloc: Global, failing: &[u64], prefix: u64) -> Result<MemStore, AllocError> {
    let failing = Sequence::from_vec(Vec::from_slice(alloc, failing)?);
    Ok(MemStore::with_failures(alloc, failing, prefix))
}

fn push_file(
    alloc: Global,
    files: &mut Sequence<(Name, Bytes)>,
    &(name, text): &File<'_>,
) -> Result<(), AllocError> {
    let name = Name::from_text(alloc, name)?;
    let bytes = Bytes::from_slice(alloc, text.as_bytes())?;
    files.push((name, bytes))
}

fn store_of(alloc: Global, files: &[File<'_>]) -> Result<MemStore, AllocError> {
    let mut given = Sequence::new(alloc);
    for file in files {
        push_file(alloc, &mut given, file)?;
    }
    MemStore::with_files(alloc, given)
}

// What a read gives of the file `f`, which has the bytes of hello.
fn bytes_read(
    alloc: Global,
    name: &str,
    offset: u64,
    len: u64,
) -> Result<Option<Bytes>, AllocError> {
    let mut store = store_of(alloc, &[("f", "hello")])?;
    match store.read(alloc, &Name::from_text(alloc, name)?, offset, len) {
        Fetched::Piece(piece) => Ok(Some(piece)),
        _ => Ok(None),
    }
}

fn reads(
    alloc: Global,
    name: &str,
    offset: u64,
    len: u64,
    text: Option<&str>,
) -> Result<bool, AllocError> {
    Ok(match (bytes_read(alloc, name, offset, len)?, text) {
        (Some(bytes), Some(text)) => bytes.as_slice() == text.as_bytes(),
        (None, None) => true,
        _ => false,
    })
}

#[test]
fn changes_files(rt: HostRuntime) -> Result<(), Fail> {
    let alloc = rt.alloc();
    let steps = [
        Step::Create("b", "one", Made::Created),
        Step::Create("b", "two", Made::Exists),
        Step::Append("b", "two", Added::Added),
        Step::Append("ab", "x", Added::Added),
        Step::Append("aa", "", Added::Added),
        Step::Create("a", "", Made::Created),
        Step::Create("c", "gone", Made::Created),
        Step::Remove("c", Gone::Removed),
        Step::Remove("c", Gone::Absent),
    ];
    let files = [("a", ""), ("aa", ""), ("ab", "x"), ("b", "onetwo")];
    let counts = counts_after(alloc, MemStore::new(alloc), &steps, &files)?;
    assert!(rt; counts == Some((9, 7, 0)));
    Ok(())
}

#[test]
fn reads_pieces(rt: HostRuntime) -> Result<(), Fail> {
    for (name, offset, len, text) in [
        ("f", 0, 5, Some("hello")),
        ("f", 1, 3, Some("ell")),
        ("f", 3, 9, Some("lo")),
        ("f", 5, 1, Some("")),
        ("f", 7, 2, Some("")),
        ("f", 2, 0, Some("")),
        ("f", u64::MAX, u64::MAX, Some("")),
        ("g", 0, 1, None),
    ] {
        assert!(rt;
            reads(rt.alloc(), name, offset, len, text)?,
            "{name} at {offset}"
        );
    }
    Ok(())
}

#[test]
fn fails_where_it_is_asked_to(rt: HostRuntime) -> Result<(), Fail> {
    let alloc = rt.alloc();
    let steps = [
        Step::Create("a", "one", Made::Failed),
        Step::Create("a", "one", Made::Created),
        Step::Create("a", "two", Made::Exists),
        Step::Remove("a", Gone::Failed),
        Step::Remove("b", Gone::Absent),
        Step::Append("b", "three", Added::Failed),
        Step::Append("a", "two", Added::Added),
    ];
    let store = failing_store(alloc, &[0, 3, 5], 0)?;
    let counts = counts_after(alloc, store, &steps, &[("a", "onetwo")])?;
    assert!(rt; counts == Some((7, 2, 3)));
    Ok(())
}

#[test]
fn leaves_the_prefix_of_a_failing_append(rt: HostRuntime) -> Result<(), Fail> {
    let alloc = rt.alloc();
    let steps = [
        Step::Create("f", "xy", Made::Created),
        Step::Append("f", "abc", Added::Failed),
    ];
    // The bytes that it leaves, what then is in the file, and how many operations there were.
    for (prefix, text, done) in [(0, "xy", 1), (2, "xyab", 2), (9, "xyabc", 2)] {
        let store = failing_store(alloc, &[1], prefix)?;
        let counts = counts_after(alloc, store, &steps, &[("f", text)])?;
        assert!(rt; counts == Some((2, done, 1)), "prefix {prefix}");
    }
    Ok(())
}

#[test]
fn begins_with_the_files_that_it_is_given(rt: HostRuntime) -> Result<(), Fail> {
    let alloc = rt.alloc();
    let given = [("b", "one"), ("c", ""), ("a", "x"), ("b", "two")];
    let files = [("a", "x"), ("b", "two"), ("c", "")];
    let unchanged = counts_after(alloc, store_of(alloc, &given)?, &[], &files)?;
    assert!(rt; unchanged == Some((0, 0, 0)));

    let steps = [
        Step::Create("a", "y", Made::Exists),
        Step::Append("b", "!", Added::Added),
        Step::Remove("c", Gone::Removed),
    ];
    let files = [("a", "x"), ("b", "two!")];
    let changed = counts_after(alloc, store_of(alloc, &given)?, &steps, &files)?;
    assert!(rt; changed == Some((3, 2, 0)));
    Ok(())
}

#[test]
fn counts_anew_where_failures_are_planned(rt: HostRuntime) -> Result<(), Fail> {
    let alloc = rt.alloc();
    let steps = [
        Step::Append("a", "y", Added::Added),
        Step::Plan(&[1], 1),
        Step::Append("a", "z", Added::Added),
        Step::Append("a", "vw", Added::Failed),
    ];
    let store = store_of(alloc, &[("a", "x")])?;
    let counts = counts_after(alloc, store, &steps, &[("a", "xyzv")])?;
    assert!(rt; counts == Some((2, 3, 1)));
    Ok(())
}
