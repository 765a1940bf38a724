// A folder in which a name isn't UTF-8. The paths of the standard library are UTF-8, so a runtime stands in for it.
use crate::calls::{Call, answer, open};
use std::alloc::{Alloc, Allocator, Global};
use std::fs::{File, Metadata, OpenOptions};
use std::io::{self, Cursor, ErrorKind};
use std::rt::Files;
use std::test::Fail;

// A runtime that has one folder, `t`, with the file `a`, one whose name is the byte 255, the file `b`, and the empty
// folder `c`.
#[derive(Clone, Copy)]
struct OddNames {
    rt: HostRuntime,
}

impl Alloc for OddNames {
    type A = Global;

    fn alloc(&self) -> Global {
        self.rt.alloc()
    }
}

fn unsupported<T>() -> io::Result<T> {
    Err(io::Error::from(ErrorKind::Unsupported))
}

impl Files for OddNames {
    type File = File;

    type Dir = Cursor<Vec<u8>>;

    fn open_file(&self, _how: &OpenOptions, _path: &str) -> io::Result<File> {
        unsupported()
    }

    fn open_dir(&self, path: &str) -> io::Result<Cursor<Vec<u8>>> {
        let names = if path.ends_with("c/") {
            b".\0..\0".as_slice()
        } else {
            b".\0..\0a\0\xff\0b\0c\0".as_slice()
        };
        Ok(Cursor::new(Vec::from_slice(self.alloc(), names)?))
    }

    fn metadata(&self, _path: &str) -> io::Result<Metadata> {
        Ok(Metadata::of_dir())
    }

    fn symlink_metadata(&self, path: &str) -> io::Result<Metadata> {
        Ok(if path.ends_with('c') {
            Metadata::of_dir()
        } else {
            Metadata::of_file(3)
        })
    }

    fn copy(&self, _from: &str, _to: &str) -> io::Result<u64> {
        unsupported()
    }

    fn rename(&self, _from: &str, _to: &str) -> io::Result<()> {
        unsupported()
    }

    fn remove_file(&self, _path: &str) -> io::Result<()> {
        unsupported()
    }

    fn create_dir(&self, _path: &str) -> io::Result<()> {
        unsupported()
    }

    fn remove_dir(&self, _path: &str) -> io::Result<()> {
        unsupported()
    }

    fn remove_dir_all<B: Allocator>(&self, _alloc: B, _path: &str) -> io::Result<()> {
        unsupported()
    }
}

#[test]
fn a_name_that_is_not_utf8_is_passed_over(rt: HostRuntime) -> Result<(), Fail> {
    let mut store = open(OddNames { rt }, rt.alloc(), "t")?;
    let listing = answer(rt.alloc(), &mut store, &Call::List)?;
    assert_eq!(rt; listing.as_str(), "a 3, b 3, ");
    Ok(())
}
