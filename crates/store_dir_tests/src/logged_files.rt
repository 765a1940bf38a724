// The files of the system, with a log of what is done to them.
use std::alloc::{Alloc, Allocator, Global};
use std::fs::{File, Metadata, OpenFile, OpenOptions};
use std::io::{self, ErrorKind, Read, Seek, SeekFrom, Write};
use std::rt::Files;

/// The system's files. Each folder that is made, each file that is written, removed or renamed and each file or folder
/// that is synced is a line of the file `log` in a folder. The paths there are those below that folder.
#[derive(Clone, Drop)]
pub struct LoggedFiles {
    pub rt: HostRuntime,
    pub folder: String,
}

/// An open file, and its path.
#[derive(Drop)]
pub struct LoggedFile {
    files: LoggedFiles,
    file: File,
    path: String,
}

impl LoggedFiles {
    fn note(&self, what: &str, path: &str) -> io::Result<()> {
        let folder = self.folder.as_str();
        let log = format!(in self.alloc(); "{folder}/log")?;
        let mut log = OpenOptions::new().append(true).open(&self.rt, log)?;
        let path = path.strip_prefix(folder).unwrap_or("outside");
        writeln!(log, "{what} {path}")
    }
}

impl Alloc for LoggedFiles {
    type A = Global;

    fn alloc(&self) -> Global {
        self.rt.alloc()
    }
}

fn unsupported<T>() -> io::Result<T> {
    Err(io::Error::from(ErrorKind::Unsupported))
}

impl Files for LoggedFiles {
    type File = LoggedFile;

    type Dir = <HostRuntime as Files>::Dir;

    fn open_file(&self, how: &OpenOptions, path: &str) -> io::Result<LoggedFile> {
        Ok(LoggedFile {
            files: self.clone()?,
            file: how.open(&self.rt, path)?,
            path: String::from_str(self.rt.alloc(), path)?,
        })
    }

    fn open_dir(&self, path: &str) -> io::Result<<HostRuntime as Files>::Dir> {
        self.rt.open_dir(path)
    }

    fn metadata(&self, path: &str) -> io::Result<Metadata> {
        self.rt.metadata(path)
    }

    fn symlink_metadata(&self, path: &str) -> io::Result<Metadata> {
        self.rt.symlink_metadata(path)
    }

    fn copy(&self, _from: &str, _to: &str) -> io::Result<u64> {
        unsupported()
    }

    fn rename(&self, from: &str, to: &str) -> io::Result<()> {
        self.note("rename to", to)?;
        self.rt.rename(from, to)
    }

    fn remove_file(&self, path: &str) -> io::Result<()> {
        self.note("remove", path)?;
        self.rt.remove_file(path)
    }

    fn create_dir(&self, path: &str) -> io::Result<()> {
        self.note("make", path)?;
        self.rt.create_dir(path)
    }

    fn remove_dir(&self, _path: &str) -> io::Result<()> {
        unsupported()
    }

    fn remove_dir_all<B: Allocator>(&self, _alloc: B, _path: &str) -> io::Result<()> {
        unsupported()
    }
}

impl Read for LoggedFile {
    fn read(&mut self, buf: &mut [u8]) -> io::Result<usize> {
        self.file.read(buf)
    }
}

impl Write for LoggedFile {
    fn write(&mut self, buf: &[u8]) -> io::Result<usize> {
        self.files.note("write to", self.path.as_str())?;
        self.file.write(buf)
    }

    fn flush(&mut self) -> io::Result<()> {
        self.file.flush()
    }
}

impl Seek for LoggedFile {
    fn seek(&mut self, to: SeekFrom) -> io::Result<u64> {
        self.file.seek(to)
    }
}

impl OpenFile for LoggedFile {
    fn metadata(&self) -> io::Result<Metadata> {
        self.file.metadata()
    }

    fn set_len(&self, _size: u64) -> io::Result<()> {
        unsupported()
    }

    fn sync_all(&self) -> io::Result<()> {
        self.files.note("sync", self.path.as_str())?;
        self.file.sync_all()
    }

    fn sync_data(&self) -> io::Result<()> {
        unsupported()
    }
}
