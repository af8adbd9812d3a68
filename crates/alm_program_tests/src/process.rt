//! A process of the tests' own.

use crate::script::Script;
use std::alloc::{Allocator, Global};
use std::cell::{Cell, RefCell};
use std::env::{Env, FillError};
use std::fmt::Display;
use std::fs::{File, Files, Metadata, OpenOptions};
use std::io::{self, BufRead, Error, ErrorKind, Lines, Read};
use std::path::PathBuf;

/// A process: its words, each with an LF after it, its standard input, and a standard output. The output takes at most three
/// bytes in a write, and fails at every write after a number of them.
#[derive(Drop)]
pub struct Process<'a> {
    alloc: Global,
    files: &'a HostRuntime,
    words: &'a [u8],
    input: Script<'a>,
    writes_left: Cell<usize>,
    printed: RefCell<Vec<u8>>,
}

impl<'a> Process<'a> {
    pub fn new(files: &'a HostRuntime, words: &'a [u8], input: Script<'a>, writes: usize) -> Self {
        let alloc = files.alloc();
        Process {
            alloc,
            files,
            words,
            input,
            writes_left: Cell::new(writes),
            printed: RefCell::new(Vec::new(alloc)),
        }
    }

    /// What was printed.
    pub fn into_printed(self) -> Vec<u8> {
        let Process { printed, .. } = self;
        printed.into_inner()
    }
}

impl Alloc for Process<'_> {
    type A = Global;

    fn alloc(&self) -> Global {
        self.alloc
    }
}

impl Env for Process<'_> {
    fn arg(&self, i: usize, buf: &mut [u8]) -> Result<usize, FillError> {
        let Some([word @ .., _]) = self.words.split_inclusive(|byte| *byte == b'\n').nth(i) else {
            return Err(FillError::NotPresent);
        };
        if buf.len() < word.len() {
            return Err(FillError::TooLong);
        }
        buf[..word.len()].copy_from_slice(word);
        Ok(word.len())
    }

    fn var(&self, _name: &str, _buf: &mut [u8]) -> Result<usize, FillError> {
        Err(FillError::NotPresent)
    }

    fn var_at(&self, _i: usize, _buf: &mut [u8]) -> Result<usize, FillError> {
        Err(FillError::NotPresent)
    }
}

/// Its files are those of the tests' own process.
impl Files for Process<'_> {
    type File = File;

    type Dir = <HostRuntime as Files>::Dir;

    fn open_file(&self, how: &OpenOptions, path: &str) -> io::Result<File> {
        self.files.open_file(how, path)
    }

    fn open_dir(&self, path: &str) -> io::Result<Self::Dir> {
        self.files.open_dir(path)
    }

    fn metadata(&self, path: &str) -> io::Result<Metadata> {
        self.files.metadata(path)
    }

    fn symlink_metadata(&self, path: &str) -> io::Result<Metadata> {
        self.files.symlink_metadata(path)
    }

    fn copy(&self, from: &str, to: &str) -> io::Result<u64> {
        self.files.copy(from, to)
    }

    fn rename(&self, from: &str, to: &str) -> io::Result<()> {
        self.files.rename(from, to)
    }

    fn remove_file(&self, path: &str) -> io::Result<()> {
        self.files.remove_file(path)
    }

    fn create_dir(&self, path: &str) -> io::Result<()> {
        self.files.create_dir(path)
    }

    fn remove_dir(&self, path: &str) -> io::Result<()> {
        self.files.remove_dir(path)
    }

    fn remove_dir_all<A: Allocator>(&self, alloc: A, path: &str) -> io::Result<()> {
        self.files.remove_dir_all(alloc, path)
    }

    fn canonicalize<A: Allocator>(&self, alloc: A, path: &str) -> io::Result<PathBuf<A>> {
        self.files.canonicalize(alloc, path)
    }

    fn read_link<A: Allocator>(&self, alloc: A, path: &str) -> io::Result<PathBuf<A>> {
        self.files.read_link(alloc, path)
    }
}

impl<'a> Input for Process<'a> {
    type Reader = Script<'a>;

    fn read_line<A: Allocator + Clone>(&self, buf: &mut String<A>) -> io::Result<usize> {
        self.reader().read_line(buf)
    }

    fn lines<A: Allocator>(&self, alloc: A) -> Lines<Script<'a>, A> {
        self.reader().lines(alloc)
    }

    fn reader(&self) -> Script<'a> {
        self.input
    }
}

impl Print for Process<'_> {
    fn print<D: Display + Drop>(&self, _value: D) -> io::Result<()> {
        Err(Error::from(ErrorKind::Unsupported))
    }

    fn println<D: Display + Drop>(&self, _value: D) -> io::Result<()> {
        Err(Error::from(ErrorKind::Unsupported))
    }

    fn write_all(&self, _bytes: &[u8]) -> io::Result<()> {
        Err(Error::from(ErrorKind::Unsupported))
    }

    fn write_some(&self, bytes: &[u8]) -> io::Result<usize> {
        let left = self.writes_left.get();
        if left == 0 {
            return Err(Error::from(ErrorKind::BrokenPipe));
        }
        self.writes_left.set(left - 1);
        let count = bytes.len().min(3);
        let Ok(mut printed) = self.printed.try_borrow_mut() else {
            return Err(Error::from(ErrorKind::Other));
        };
        match printed.extend_from_slice(&bytes[..count]) {
            Ok(()) => Ok(count),
            Err(_) => Err(Error::from(ErrorKind::OutOfMemory)),
        }
    }
}
