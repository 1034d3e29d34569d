//! The files that pictures become.

use crate::runs::{NAMED_TWICE, is_named};
use acc_follow::{Frame, Page, PictureSink, Stop, Unkept};
use acc_terminal::Keeper;
use acc_trials::{FileFault, FileStore};
use std::alloc::Global;
use std::cell::Cell;

/// The least numbers of two to six digits.
const ROUND: &[u64] = &[10, 100, 1_000, 10_000, 100_000];

/// Keeps pictures as files of these names.
#[derive(Drop)]
pub struct PictureFiles<'a, D> {
    /// Where the files are.
    pub files: &'a D,
    /// The allocator.
    pub alloc: Global,
    /// The file of the script, if there is one.
    pub file: Option<&'a str>,
    /// The file of the output that it has to have, if there is one.
    pub expect: Option<&'a str>,
    /// The file of the picture at the end, if there is one.
    pub last: Option<&'a str>,
    /// The file of the pictures behind directives, without the number of the line.
    pub each: Option<&'a str>,
    /// The file of the page that shows the script step by step, if there is one.
    pub page: Option<&'a str>,
}

impl<D: FileStore> PictureSink for PictureFiles<'_, D> {
    fn keep(&self, frame: Frame, picture: &[u8]) -> Result<(), Stop> {
        let written = match frame {
            Frame::Last => self.files.write(self.last.unwrap_or(""), picture),
            Frame::Line(number) => self.write_numbered(number, picture),
            Frame::Each => self.files.write(self.page.unwrap_or(""), picture),
        };
        match written {
            Ok(()) => Ok(()),
            Err(fault) => Err(Stop::Picture(Unkept {
                frame,
                reason: fault.reason()?,
            })),
        }
    }
}

impl<D: FileStore> Keeper for PictureFiles<'_, D> {
    fn file(&self) -> Option<&str> {
        self.file
    }

    fn save(&self, name: &str, script: &[u8]) -> Result<(), &'static str> {
        match self.files.write(name, script) {
            Ok(()) => Ok(()),
            Err(fault) => Err(fault.reason().unwrap_or("there is no memory")),
        }
    }
}

impl<D: FileStore> PictureFiles<'_, D> {
    fn write_numbered(&self, number: u64, picture: &[u8]) -> Result<(), FileFault> {
        let mut page = Page::new(self.alloc);
        put_numbered(&mut page, self.each.unwrap_or(""), number);
        match page.whole() {
            // The name is that of the command line, with a number.
            Ok(name) => self.write_apart(str::from_utf8(name).unwrap_or(""), picture),
            Err(_) => Err(FileFault::Memory),
        }
    }

    /// Writes a picture of a line, unless its file is another one of the run.
    fn write_apart(&self, name: &str, picture: &[u8]) -> Result<(), FileFault> {
        let others = [self.file, self.expect, self.last, self.page];
        if is_named(self.files, name, &others) {
            return Err(FileFault::Because(NAMED_TWICE));
        }
        self.files.write(name, picture)
    }
}

/// A store whose file `-` is standard output. What is written there is held, for whoever runs the script.
#[derive(Drop)]
pub struct Shown<'a, D> {
    /// The other files.
    pub files: &'a D,
    /// The allocator.
    pub alloc: Global,
    /// What was written to standard output.
    pub held: Cell<Option<Vec<u8>>>,
}

impl<D: FileStore> FileStore for Shown<'_, D> {
    fn read(&self, name: &str) -> Result<Vec<u8>, FileFault> {
        self.files.read(name)
    }

    fn list(&self, folder: &str) -> Result<Option<Vec<String>>, FileFault> {
        self.files.list(folder)
    }

    fn is_same(&self, one: &str, other: &str) -> bool {
        self.files.is_same(one, other)
    }

    fn remove(&self, name: &str) {
        self.files.remove(name);
    }

    fn make_folder(&self, name: &str) -> Result<(), FileFault> {
        self.files.make_folder(name)
    }

    fn write(&self, name: &str, bytes: &[u8]) -> Result<(), FileFault> {
        if name != "-" {
            return self.files.write(name, bytes);
        }
        match Vec::from_slice(self.alloc, bytes) {
            Ok(copy) => {
                self.held.set(Some(copy));
                Ok(())
            }
            Err(_) => Err(FileFault::Memory),
        }
    }
}

/// Puts the name of a file with a number before its ending: `life.000007.svg` for `life.svg` and 7, so that names are in
/// the order of lines.
pub fn put_numbered(page: &mut Page, name: &str, number: u64) {
    match name.rsplit_once('.') {
        Some((stem, ending)) if !ending.contains('/') => {
            put_stem(page, stem, number);
            page.text(".");
            page.text(ending);
        }
        _ => put_stem(page, name, number),
    }
}

fn put_stem(page: &mut Page, stem: &str, number: u64) {
    page.text(stem);
    page.text(".");
    for least in ROUND {
        if number < *least {
            page.text("0");
        }
    }
    page.number(number);
}
