//! Jobs.

use crate::about::About;
use crate::endpoints::Endpoints;
use alm_codec::Version;

/// What the program is asked to do.
#[derive(Clone, Copy, Debug, PartialEq, Eq)]
pub enum Job<'a> {
    /// Prints what is asked of the program itself.
    Tell(About),
    /// Answers standard input, over a device or the worked table in memory.
    Desk(Option<&'a str>),
    /// Makes a device of a table file, in a version.
    Format {
        device: &'a str,
        table: &'a str,
        version: Version,
    },
    /// Brings a device to a version, with its plant.
    Upgrade {
        device: &'a str,
        version: Version,
    },
    /// Prints the plant of a device.
    Show(&'a str),
    /// Prints the table of a device's plant as a table file.
    Export(&'a str),
    /// Serves the slots there, `conns` connections in all; 0 is without end. If a device call takes longer than `patience`
    /// seconds, no client is served until it ends. The device is scrubbed each time after `scrub` seconds; 0 is never.
    Serve {
        device: &'a str,
        endpoints: Endpoints<'a>,
        conns: u32,
        patience: Option<u32>,
        scrub: u32,
    },
}
