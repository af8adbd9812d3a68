//! A value whose entry is to be added.

use logbook::Pen;

/// A value whose entry is to be added, and the pen that adds the next one.
#[derive(Drop)]
pub struct Addition<'a, X> {
    pub about: &'a X,
    pub next: &'a Pen,
}
