//! What a look at the device found.

ghost use Rattle.alm_lines.specs.Written.{Prints};
ghost use Rattle.alm_serve.specs.Scrubs.{found_line};

use alm_lines::{Part, put_parts};
use alm_store::OpenFault;
use std::io;

/// What a look at the device of a run found.
#[derive(Clone, Copy, Debug, PartialEq, Eq)]
pub enum Found {
    /// It opens, with all that was stored before the look.
    Whole,
    /// It is damaged: in a half, or in its header (2), at a place.
    Damaged { half: u8, at: u64 },
    /// It isn't formatted.
    Unformatted,
    /// It can't be read.
    Unreadable,
    /// It opens as an older plant, of this number of actions.
    Older(u64),
    /// There was no memory, or it was to end: nothing is known.
    Nothing,
}

impl Found {
    /// What a fault of an opening says.
    pub fn of(fault: OpenFault) -> Self {
        match fault {
            OpenFault::Unformatted => Found::Unformatted,
            OpenFault::Damaged { half, at } => Found::Damaged { half, at },
            OpenFault::Disk => Found::Unreadable,
            OpenFault::OutOfMemory => Found::Nothing,
        }
    }

    /// Whether a checkpoint is to heal it.
    pub fn is_damage(self) -> bool {
        match self {
            Found::Whole | Found::Nothing => false,
            Found::Damaged { .. } | Found::Unformatted | Found::Unreadable | Found::Older(_) =>
                true,
        }
    }
}

/// Prints the line for what was found: of a whole device, that it was healed.
pub fn print_found<W: io::Write>(found: Found, writer: &mut W) -> io::Result<()>
    ensures { Prints (W.contents writer.old) (W.contents writer.new) (found_line found) result }
{
    match found {
        Found::Whole => put_parts(&[Part::Word("scrub healed\n")], writer),
        Found::Damaged { half, at } => put_parts(
            &[
                Part::Word("scrub damaged "),
                Part::Number(u64::from(half)),
                Part::Word(" "),
                Part::Number(at),
                Part::Word("\n"),
            ],
            writer,
        ),
        Found::Unformatted => put_parts(&[Part::Word("scrub unformatted\n")], writer),
        Found::Unreadable => put_parts(&[Part::Word("scrub disk\n")], writer),
        Found::Older(count) => put_parts(
            &[
                Part::Word("scrub older "),
                Part::Number(count),
                Part::Word("\n"),
            ],
            writer,
        ),
        Found::Nothing => Ok(()),
    }
}
