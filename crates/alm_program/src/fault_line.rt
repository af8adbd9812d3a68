//! The lines that report faults.

ghost use Rattle.std.specs.Prelude.{◌≡◌, ◌++◌, codes};
ghost use Rattle.alm_lines.specs.Parts.{part_text};
ghost use Rattle.alm_lines.specs.Written.{Prints};
ghost use Rattle.alm_program.specs.Faults.{alarm_text, printed_byte, key_text, fault_text, fault_line};

use crate::fault::Fault;
use alm_lines::{Part, put, put_parts};
use std::io;

/// An alarm's number, or `-` for the file's own keys.
fn alarm_part(alarm: Option<u32>) -> Part<'static>
    ensures { part_text result ≡ alarm_text alarm }
{
    match alarm {
        Some(number) => Part::Number(u64::from(number)),
        None => Part::Word("-"),
    }
}

/// A byte, or `?` for one that doesn't print.
fn printed_byte(byte: u8) -> u8
    ensures { result ≡ printed_byte byte }
{
    if byte < b' ' || byte == 0x7F {
        b'?'
    } else {
        byte
    }
}

/// Prints a key on one line.
fn print_key<W: io::Write>(key: &[u8], writer: &mut W) -> io::Result<()>
    ensures { Prints (W.contents writer.old) (W.contents writer.new) (key_text key.now) result }
{
    for byte in key {
        put(&[printed_byte(*byte)], writer)?;
    }
    Ok(())
}

/// Prints that a key is wrong.
fn print_wrong_key<W: io::Write>(alarm: Option<u32>, key: &str, writer: &mut W) -> io::Result<()>
    ensures { Prints (W.contents writer.old) (W.contents writer.new)
        (codes "table " ++ alarm_text alarm ++ codes " " ++ key_text key.now) result }
{
    put_parts(
        &[Part::Word("table "), alarm_part(alarm), Part::Word(" ")],
        writer,
    )?;
    print_key(key.as_bytes(), writer)
}

/// Prints a fault.
fn print_name<W: io::Write>(fault: &Fault, writer: &mut W) -> io::Result<()>
    ensures { Prints (W.contents writer.old) (W.contents writer.new) (fault_text fault.now) result }
{
    let word = match fault {
        Fault::Key(alarm, key) => return print_wrong_key(*alarm, key.as_str(), writer),
        Fault::Damaged { half, at } => {
            return put_parts(
                &[
                    Part::Word("damaged "),
                    Part::Number(u64::from(*half)),
                    Part::Word(" "),
                    Part::Number(*at),
                ],
                writer,
            );
        }
        Fault::Usage => "usage",
        Fault::Toml => "toml",
        Fault::Rows => "rows",
        Fault::TooSmall => "too-small",
        Fault::Unformatted => "unformatted",
        Fault::Disk => "disk",
        Fault::Stopped => "stopped",
        Fault::OutOfMemory => "memory",
        Fault::Net => "net",
        Fault::Io => "io",
    };
    put(word.as_bytes(), writer)
}

/// Prints the line of a fault. If the writer fails, a prefix of it is written.
pub fn print_fault<W: io::Write>(fault: &Fault, writer: &mut W) -> io::Result<()>
    ensures { Prints (W.contents writer.old) (W.contents writer.new) (fault_line fault.now) result }
{
    put(b"fault ", writer)?;
    print_name(fault, writer)?;
    put(b"\n", writer)
}
