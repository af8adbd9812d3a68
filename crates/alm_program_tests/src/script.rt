//! A reader that follows a script.

ghost use Rattle.std.specs.Prelude.{◌≤◌, length};

use std::io::{self, BufRead, Error, ErrorKind, Read};

/// What a read does.
#[derive(Clone, Copy, Debug)]
pub enum Step<'a> {
    /// It gives these bytes.
    Gives(&'a [u8]),
    Interrupted,
    Fails,
}

/// A reader that takes a step at each read, and is at its end after the last.
#[derive(Clone, Copy, Debug, Drop)]
pub struct Script<'a> {
    steps: &'a [Step<'a>],
}

impl<'a> Script<'a> {
    pub fn new(steps: &'a [Step<'a>]) -> Self {
        Script { steps }
    }
}

/// Copies what has room.
fn copy(from: &[u8], into: &mut [u8]) -> usize
    ensures { result ≤ length into.new }
{
    let count = from.len().min(into.len());
    into[..count].copy_from_slice(&from[..count]);
    count
}

impl Read for Script<'_> {
    fn read(&mut self, into: &mut [u8]) -> io::Result<usize> {
        let [step, rest @ ..] = self.steps else {
            return Ok(0);
        };
        self.steps = rest;
        match *step {
            Step::Gives(bytes) => Ok(copy(bytes, into)),
            Step::Interrupted => Err(Error::from(ErrorKind::Interrupted)),
            Step::Fails => Err(Error::from(ErrorKind::BrokenPipe)),
        }
    }
}

/// A script can't be peeked at before it is read.
impl BufRead for Script<'_> {
    fn fill_buf(&mut self) -> io::Result<&[u8]> {
        Err(Error::from(ErrorKind::Unsupported))
    }

    fn consume(&mut self, _amount: usize) {}
}
