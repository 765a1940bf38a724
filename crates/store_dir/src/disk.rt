// What is done to the files of a folder. A change isn't over before it outlives a loss of power.
ghost use Rattle.std.specs.Prelude.{◌≡◌, ◌≢◌, ◌≤◌, Ok, Err, Some, None, IfOk, IfErr, IfSome, vec_len};
ghost use Rattle.std.specs.IoError.{error_kind};

use crate::path::folder_of;
use std::alloc::Global;
use std::fs::{self, OpenFile, OpenOptions};
use std::io::{self, ErrorKind, Read, Seek, SeekFrom, Write};
use std::rt::Files;

// A file or a folder that is open, with its path.
#[derive(Drop)]
struct Opened<F: Drop> {
    path: String,
    file: F,
}

/// The files below a folder. What the next change is likely to need stays open: the folder that was synced last, and the
/// file that was added to last.
#[derive(Drop)]
pub struct Disk<R: Files + Drop> {
    rt: R,
    folder: Option<Opened<R::File>>,
    file: Option<Opened<R::File>>,
}

impl<R: Files + Drop> Disk<R> {
    /// With nothing open.
    pub fn new(rt: R) -> Disk<R> {
        Disk {
            rt,
            folder: None,
            file: None,
        }
    }

    /// The files of the system.
    pub fn files(&self) -> &R {
        &self.rt
    }

    /// Makes an empty file where its path is free. Says whether it was. Such a file is whole as soon as it is there: nothing
    /// in it has to be synced, but its name, with the folder.
    pub fn make_empty(&mut self, alloc: Global, path: &str) -> io::Result<bool> {
        let folder = folder_of(path);
        let made = match create_new(&self.rt, path) {
            Err(error) if error.kind() == ErrorKind::NotFound => {
                self.make_folders(alloc, folder)?;
                create_new(&self.rt, path)
            }
            answer => answer,
        };
        match made {
            Ok(()) => {
                self.sync_folder(alloc, folder)?;
                Ok(true)
            }
            Err(error) if error.kind() == ErrorKind::AlreadyExists => Ok(false),
            Err(error) => Err(error),
        }
    }

    /// Makes a file whole under its temporary path, and renames it where its own path is free. Says whether it was. A
    /// temporary file that is left behind is overwritten by the next call.
    pub fn make_written(
        &mut self,
        alloc: Global,
        temporary: &str,
        path: &str,
        bytes: &[u8],
    ) -> io::Result<bool> {
        let mut file = self.create_over(alloc, temporary)?;
        write_synced(&mut file, bytes)?;
        if where_found(fs::symlink_metadata(&self.rt, path))?.is_some() {
            return Ok(false);
        }
        self.rename_to(alloc, temporary, path)?;
        self.sync_folder(alloc, folder_of(path))?;
        Ok(true)
    }

    // Makes a file anew, whatever is in its place. Its folder is made where it is missing.
    fn create_over(&mut self, alloc: Global, path: &str) -> io::Result<R::File> {
        match fs::create(&self.rt, path) {
            Err(error) if error.kind() == ErrorKind::NotFound => {
                self.make_folders(alloc, folder_of(path))?;
                fs::create(&self.rt, path)
            }
            answer => answer,
        }
    }

    // Gives a file another path, whose folder is made where it is missing.
    fn rename_to(&mut self, alloc: Global, from: &str, path: &str) -> io::Result<()> {
        match fs::rename(&self.rt, from, path) {
            Err(error) if error.kind() == ErrorKind::NotFound => {
                self.make_folders(alloc, folder_of(path))?;
                fs::rename(&self.rt, from, path)
            }
            answer => answer,
        }
    }

    /// Adds bytes at the end of a file, and makes it where it is absent.
    pub fn append_bytes(&mut self, alloc: Global, path: &str, bytes: &[u8]) -> io::Result<()> {
        let mut opened = match take_opened(&mut self.file, path) {
            Some(file) => file,
            None => self.open_end(alloc, path)?,
        };
        write_synced(&mut opened, bytes)?;
        self.file = kept_open(alloc, path, opened);
        Ok(())
    }

    // The end of a file, which is made where it is absent.
    fn open_end(&mut self, alloc: Global, path: &str) -> io::Result<R::File> {
        if let Some(file) = where_found(OpenOptions::new().append(true).open(&self.rt, path))? {
            return Ok(file);
        }
        let folder = folder_of(path);
        self.make_folders(alloc, folder)?;
        let file = OpenOptions::new()
            .append(true)
            .create(true)
            .open(&self.rt, path)?;
        self.sync_folder(alloc, folder)?;
        Ok(file)
    }

    /// Removes a file. Says whether it was there.
    pub fn remove_file(&mut self, alloc: Global, path: &str) -> io::Result<bool> {
        let _no_more = take_opened(&mut self.file, path);
        if where_found(fs::remove_file(&self.rt, path))?.is_none() {
            return Ok(false);
        }
        self.sync_folder(alloc, folder_of(path))?;
        Ok(true)
    }

    // Makes a folder, and the missing ones on the way to it from the top.
    fn make_folders(&mut self, alloc: Global, folder: &str) -> io::Result<()> {
        for end in 1..folder.len() {
            match folder.split_at_checked(end) {
                Some((above, rest)) if rest.starts_with('/') => self.make_folder(alloc, above)?,
                _ => {}
            }
        }
        self.make_folder(alloc, folder)
    }

    // Makes a folder where it is missing.
    fn make_folder(&mut self, alloc: Global, folder: &str) -> io::Result<()> {
        if fs::exists(&self.rt, folder)? {
            return Ok(());
        }
        fs::create_dir(&self.rt, folder)?;
        self.sync_folder(alloc, folder_of(folder))
    }

    // Sees to it that the names in a folder outlive a loss of power.
    fn sync_folder(&mut self, alloc: Global, folder: &str) -> io::Result<()> {
        let opened = match take_opened(&mut self.folder, folder) {
            Some(opened) => opened,
            None => fs::open(&self.rt, folder)?,
        };
        opened.sync_all()?;
        self.folder = kept_open(alloc, folder, opened);
        Ok(())
    }
}

// The file that is kept open, if it has this path. It is kept no longer: a call that fails leaves nothing open.
fn take_opened<F: Drop>(slot: &mut Option<Opened<F>>, path: &str) -> Option<F> {
    match slot.take() {
        Some(opened) if opened.path.as_str() == path => Some(opened.file),
        _ => None,
    }
}

// An open file with its path. Where there is no memory for the path it is closed, and opened again when it is needed.
fn kept_open<F: Drop>(alloc: Global, path: &str, file: F) -> Option<Opened<F>> {
    match String::from_str(alloc, path) {
        Ok(path) => Some(Opened { path, file }),
        Err(_) => None,
    }
}

/// What a call on a path gave, or none where nothing is there.
pub fn where_found<T>(answer: io::Result<T>) -> io::Result<Option<T>>
    ensures found { IfOk answer (λ value. result ≡ Ok (Some value)) }
    ensures absent { IfErr answer (λ error. error_kind error ≡ ErrorKind.NotFound → result ≡ Ok None) }
    ensures other { IfErr answer (λ error. error_kind error ≢ ErrorKind.NotFound → result ≡ Err error) }
{
    match answer {
        Ok(value) => Ok(Some(value)),
        Err(error) if error.kind() == ErrorKind::NotFound => Ok(None),
        Err(error) => Err(error),
    }
}

/// The bytes of a file from an offset on: `len` of them, or fewer where the file ends. None where there is no file.
pub fn read_piece<R: Files>(
    rt: &R,
    alloc: Global,
    path: &str,
    offset: u64,
    len: u64,
) -> io::Result<Option<Vec<u8>>>
    ensures { IfOk result (λ piece. IfSome piece (λ bytes. vec_len bytes ≤ len)) }
{
    match where_found(fs::open(rt, path))? {
        Some(file) => Ok(Some(read_from(file, alloc, offset, len)?)),
        None => Ok(None),
    }
}

// A piece of an open file. The system takes no offset above its own limits, so one past the end is cut back to it.
fn read_from<F: Read + Seek + OpenFile + Drop>(
    mut file: F,
    alloc: Global,
    offset: u64,
    len: u64,
) -> io::Result<Vec<u8>>
    ensures { IfOk result (λ bytes. vec_len bytes ≤ len) }
{
    let size = file.metadata()?.len();
    file.seek(SeekFrom::Start(offset.min(size)))?;
    let mut bytes = Vec::new(alloc);
    file.take(len).read_to_end(&mut bytes)?;
    // There are no more; no clause of the standard library says so.
    bytes.truncate(len as usize);
    Ok(bytes)
}

// Makes a file that isn't there, in a folder that is.
fn create_new<R: Files>(rt: &R, path: &str) -> io::Result<()> {
    OpenOptions::new()
        .write(true)
        .create_new(true)
        .open(rt, path)?;
    Ok(())
}

// Writes bytes to a file, and sees to it that they outlive a loss of power.
fn write_synced<F: Write + OpenFile>(file: &mut F, bytes: &[u8]) -> io::Result<()> {
    file.write_all(bytes)?;
    file.sync_all()
}
