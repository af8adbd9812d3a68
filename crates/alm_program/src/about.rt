//! What the program says of itself.

/// What is asked of the program itself.
#[derive(Clone, Copy, Debug, PartialEq, Eq)]
pub enum About {
    /// Its words.
    Usage,
    /// Its version.
    Version,
}

/// Its version, as the file VERSION has it.
const VERSION: &str = "alm_server 0.4.0\n";

const USAGE: &str = "usage: alm_server format DEVICE TABLE [--version 02|03]
       alm_server upgrade DEVICE [--version 02|03]
       alm_server serve DEVICE --port P|--sockets FOLDER [--conns N] [--patience SECONDS] [--scrub SECONDS]
       alm_server desk [DEVICE]
       alm_server show DEVICE
       alm_server export DEVICE
       alm_server --help
       alm_server --version
";

impl About {
    /// The text that is printed.
    pub fn text(self) -> &'static str {
        match self {
            About::Usage => USAGE,
            About::Version => VERSION,
        }
    }
}
