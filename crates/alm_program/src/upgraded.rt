//! What an upgrade has done.

use alm_disk::Disk;
use alm_keeper::Keeper;

/// A device that was to be brought to a version, opened, and the new one that has taken its place; none, if it was of that version.
#[derive(Drop)]
pub struct Upgraded<D: Disk + Drop, E: Drop> {
    pub old: Keeper<D>,
    pub new: Option<E>,
}
