//! The files that the command line names.

use acc_base::Fault;
use acc_script::{FromRead, Source, read_all};
use std::alloc::Global;
use std::fs::{self, File, OpenFile};
use std::io::{self, ErrorKind, Read, Write};
use std::os::unix::fs::MetadataExt;
use std::rt::Files;

/// Why a file cannot be read that is longer than `acc_script` reads.
const TOO_LONG: &str = "it has more than 16,777,216 bytes";

/// Why a folder cannot be listed whose names are longer together.
const TOO_MANY_NAMES: &str = "its names have more than 16,777,216 bytes";

/// How long a name may be that gets `.new` behind it up to [`TRIES`] times; the system takes 255 bytes.
const LONGEST: usize = 191;

/// How many names are tried for a new file.
const TRIES: u64 = 16;

/// Why a file cannot be read, or cannot be written.
#[derive(Clone, Copy)]
pub enum FileFault {
    /// There is no memory for it.
    Memory,
    /// It is not there.
    Absent,
    /// The system does not give it, or it is too long: why, in words.
    Because(&'static str),
}

impl FileFault {
    /// Why, in words.
    ///
    /// # Errors
    ///
    /// [`Fault::Memory`].
    pub fn reason(self) -> Result<&'static str, Fault> {
        match self {
            FileFault::Memory => Err(Fault::Memory),
            FileFault::Absent => Ok("No such file or directory"),
            FileFault::Because(reason) => Ok(reason),
        }
    }
}

impl From<io::Error> for FileFault {
    fn from(error: io::Error) -> FileFault {
        match error.kind() {
            ErrorKind::OutOfMemory => FileFault::Memory,
            ErrorKind::NotFound => FileFault::Absent,
            kind => FileFault::Because(reason_of(kind)),
        }
    }
}

/// Reads and writes whole files by their names.
pub trait FileStore {
    /// Returns the bytes of a file.
    ///
    /// # Errors
    ///
    /// Those of [`FileFault`]; a file may have 16,777,216 bytes.
    fn read(&self, name: &str) -> Result<Vec<u8>, FileFault>;

    /// Returns the paths of what is in a folder, in any order; `None` where that is no folder. It leaves out names that
    /// begin with `.`, and links that lead to no file. Where a name is not UTF-8, U+FFFD stands in it, and no such file
    /// can be read.
    ///
    /// # Errors
    ///
    /// Those of [`FileFault`].
    fn list(&self, _folder: &str) -> Result<Option<Vec<String>>, FileFault> {
        Ok(None)
    }

    /// Whether two names are those of one file, or of one that is not there.
    fn is_same(&self, one: &str, other: &str) -> bool {
        one == other
    }

    /// Removes a file, if that can be.
    fn remove(&self, _name: &str) {}

    /// Makes a folder, unless it is there.
    ///
    /// # Errors
    ///
    /// Those of [`FileFault`].
    fn make_folder(&self, _name: &str) -> Result<(), FileFault> {
        Ok(())
    }

    /// Makes a file of these bytes, in place of one that has that name; where that fails, that one stays. No other file
    /// changes. A link, a terminal or a pipe stays too, and gets the bytes.
    ///
    /// # Errors
    ///
    /// Those of [`FileFault`].
    fn write(&self, name: &str, bytes: &[u8]) -> Result<(), FileFault>;
}

/// The files of the system.
#[derive(Drop)]
pub struct Disk<'a, R> {
    /// The handle that reaches them.
    pub rt: &'a R,
}

impl<R: Files + AllocGlobal + Sync> FileStore for Disk<'_, R> {
    fn read(&self, name: &str) -> Result<Vec<u8>, FileFault> {
        read_open(self.rt.alloc(), fs::open(self.rt, name)?)
    }

    fn list(&self, folder: &str) -> Result<Option<Vec<String>>, FileFault> {
        // The slash follows a link to a folder.
        let path = path_in(self.rt.alloc(), folder, b"")?;
        list_at(self.rt, folder, path.as_str())
    }

    fn make_folder(&self, name: &str) -> Result<(), FileFault> {
        match fs::create_dir(self.rt, name) {
            Err(_) if fs::metadata(self.rt, name).is_ok_and(|old| old.is_dir()) => Ok(()),
            made => Ok(made?),
        }
    }

    fn is_same(&self, one: &str, other: &str) -> bool {
        match (number_of(self.rt, one), number_of(self.rt, other)) {
            (Some(first), Some(second)) => first == second,
            (None, None) => is_same_name(self.rt, one, other),
            _ => false,
        }
    }

    fn remove(&self, name: &str) {
        let _ = fs::remove_file(self.rt, name);
    }

    fn write(&self, name: &str, bytes: &[u8]) -> Result<(), FileFault> {
        Ok(write_whole(self.rt, name, bytes)?)
    }
}

/// The paths of the files in a folder; `None` where it is no folder.
type Listed = Result<Option<Vec<String>>, FileFault>;

fn list_at<R: Files + AllocGlobal>(rt: &R, folder: &str, path: &str) -> Listed {
    match rt.open_dir(path) {
        Ok(names) => list_open(rt, folder, names),
        Err(error) if error.kind() == ErrorKind::NotADirectory => Ok(None),
        Err(error) => Err(FileFault::from(error)),
    }
}

fn list_open<R: Files + AllocGlobal, F: Read + Drop>(rt: &R, folder: &str, names: F) -> Listed {
    let names = read_whole(rt.alloc(), names, TOO_MANY_NAMES)?;
    let mut paths = Vec::new(rt.alloc());
    add_paths(rt, &mut paths, folder, &names)?;
    Ok(Some(paths))
}

fn write_whole<R: Files + AllocGlobal>(rt: &R, name: &str, bytes: &[u8]) -> io::Result<()> {
    if fs::symlink_metadata(rt, name).is_ok_and(|old| !old.is_file()) {
        return fs::write(rt, name, bytes);
    }
    let mut beside = start_beside(rt.alloc(), name)?;
    write_beside(rt, name, &mut beside, bytes)
}

/// What the name of a file beside another begins with: that one's, or `accrun` in its folder where that one is long.
fn start_beside(alloc: Global, name: &str) -> io::Result<String> {
    match name.rsplit_once('/') {
        Some((folder, last)) if last.len() > LONGEST => {
            let mut beside = String::from_str(alloc, folder)?;
            beside.push_str("/accrun")?;
            Ok(beside)
        }
        None if name.len() > LONGEST => Ok(String::from_str(alloc, "accrun")?),
        _ => Ok(String::from_str(alloc, name)?),
    }
}

/// The numbers of a file that is there: those of its disk and of its node.
fn number_of<R: Files>(rt: &R, name: &str) -> Option<(u64, u64)> {
    let metadata = fs::metadata(rt, name).ok()?;
    Some((metadata.dev(), metadata.ino()))
}

/// Whether two files that are not there would be one: in the same folder, under the same name.
fn is_same_name<R: Files>(rt: &R, one: &str, other: &str) -> bool {
    let (first, second) = (parts_of(one), parts_of(other));
    let folder = number_of(rt, first.0);
    first.1 == second.1 && folder.is_some() && folder == number_of(rt, second.0)
}

/// The folder of a file, and its name there.
fn parts_of(name: &str) -> (&str, &str) {
    match name.rsplit_once('/') {
        Some(("", last)) => ("/", last),
        Some(parts) => parts,
        None => (".", name),
    }
}

/// Writes a file beside another, which then takes its name; or else it is removed.
fn write_beside<R: Files>(rt: &R, name: &str, beside: &mut String, bytes: &[u8]) -> io::Result<()> {
    let mut file = open_beside(rt, beside)?;
    let replaced = replace(rt, name, beside.as_str(), &mut file, bytes);
    if replaced.is_err() {
        let _ = fs::remove_file(rt, beside.as_str());
    }
    replaced
}

/// Makes a new file whose name is this one with `.new` behind it, or with more of these where that is taken.
fn open_beside<R: Files>(rt: &R, name: &mut String) -> io::Result<R::File> {
    for _ in 0..TRIES {
        name.push_str(".new")?;
        match File::create_new(rt, name.as_str()) {
            Err(error) if error.kind() == ErrorKind::AlreadyExists => {}
            opened => return opened,
        }
    }
    Err(io::Error::from(ErrorKind::AlreadyExists))
}

/// Writes a new file, which then takes the name of another, unless that may not be written.
fn replace<R: Files>(
    rt: &R,
    name: &str,
    beside: &str,
    file: &mut R::File,
    bytes: &[u8],
) -> io::Result<()> {
    if let Ok(old) = fs::metadata(rt, name) {
        if old.permissions().readonly() {
            return Err(io::Error::from(ErrorKind::PermissionDenied));
        }
        let _ = fs::set_permissions(rt, beside, old.permissions());
    }
    file.write_all(bytes)?;
    file.sync_all()?;
    fs::rename(rt, beside, name)
}

/// Adds the paths of names in a folder, each with a zero behind it.
fn add_paths<R: Files + AllocGlobal>(
    rt: &R,
    paths: &mut Vec<String>,
    folder: &str,
    names: &[u8],
) -> io::Result<()> {
    for name in names.split(|byte| *byte == 0) {
        if !name.is_empty() && !name.starts_with(b".") {
            add_path(rt, paths, path_in(rt.alloc(), folder, name)?)?;
        }
    }
    Ok(())
}

/// Adds a path, unless it is that of a link that leads to no file.
fn add_path<R: Files>(rt: &R, paths: &mut Vec<String>, path: String) -> io::Result<()> {
    if !leads_nowhere(rt, path.as_str()) {
        paths.push(path)?;
    }
    Ok(())
}

fn path_in(alloc: Global, folder: &str, name: &[u8]) -> io::Result<String> {
    let mut path = String::from_str(alloc, folder)?;
    if !folder.is_empty() && !folder.ends_with('/') {
        path.push_str("/")?;
    }
    path.push_str(String::from_utf8_lossy(alloc, name)?.as_str())?;
    Ok(path)
}

/// Whether a path is that of a link that leads to no file.
fn leads_nowhere<R: Files>(rt: &R, path: &str) -> bool {
    fs::symlink_metadata(rt, path).is_ok_and(|link| link.is_symlink())
        && !fs::metadata(rt, path).is_ok_and(|target| target.is_file())
}

fn read_open<F: Read + OpenFile + Drop>(alloc: Global, file: F) -> Result<Vec<u8>, FileFault> {
    if file.metadata().is_ok_and(|metadata| metadata.is_dir()) {
        return Err(FileFault::Because("Is a directory"));
    }
    read_whole(alloc, file, TOO_LONG)
}

/// Reads all that there is, or says that it is too long.
fn read_whole<F: Read + Drop>(
    alloc: Global,
    file: F,
    too_long: &'static str,
) -> Result<Vec<u8>, FileFault> {
    let mut reader = WatchedReader {
        inner: FromRead::new(file),
        has_failed: false,
    };
    match read_all(alloc, &mut reader) {
        Ok(bytes) => Ok(bytes),
        Err(Fault::Memory) => Err(FileFault::Memory),
        Err(_) if reader.has_failed => Err(FileFault::Because("a read failed")),
        Err(_) => Err(FileFault::Because(too_long)),
    }
}

/// A reader that notes whether a read failed.
#[derive(Drop)]
struct WatchedReader<F: Read + Drop> {
    inner: FromRead<F>,
    has_failed: bool,
}

impl<F: Read + Drop> Source for WatchedReader<F> {
    fn read(&mut self, piece: &mut [u8]) -> Option<usize> {
        let count = self.inner.read(piece);
        self.has_failed |= count.is_none();
        count
    }
}

/// Why the system does not give or take a file, in its own words.
fn reason_of(kind: ErrorKind) -> &'static str {
    match kind {
        ErrorKind::PermissionDenied => "Permission denied",
        ErrorKind::NotADirectory => "Not a directory",
        ErrorKind::IsADirectory => "Is a directory",
        ErrorKind::AlreadyExists => "File exists",
        ErrorKind::StorageFull => "No space left on device",
        ErrorKind::ReadOnlyFilesystem => "Read-only file system",
        _ => "the system refuses it",
    }
}
