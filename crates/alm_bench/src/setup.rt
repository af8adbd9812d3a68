//! What a bench is made of.

use alm_disk::Crashable;
use alm_keeper::Keeper;
use alm_pipeline::Pipeline;
use alm_store::Store;

/// What a bench is made of: a pipeline over an open device, or a closed device alone.
#[derive(Drop)]
pub enum Setup<D: Crashable + Drop>
where
    Keeper<D>: Store,
{
    Open(Pipeline<Keeper<D>>),
    Shut(D),
    /// Only in the middle of a step.
    Gone,
}
