//! How a server ended.

use crate::serve_fault::ServeFault;
use crate::store_end::StoreEnd;
use alm_moments::RunId;
use alm_rings::Told;
use alm_store::Store;
use alm_threads::StopCause;

/// How a server ended, and the device that it was given, or the store over it.
#[derive(Drop)]
pub struct ServerEnd<B: Drop> {
    /// How many actions are stored after a whole run, or why it serves no more.
    pub served: Result<u64, ServeFault>,
    /// Why its run stopped, with [`ServeFault::Storage`].
    pub cause: Option<StopCause>,
    pub back: B,
}

impl<B: Drop> ServerEnd<B> {
    ghost use Rattle.std.specs.Prelude.{◌≡◌, Err, None};

    /// Nothing was run.
    pub fn unserved(fault: ServeFault, back: B) -> Self
        ensures served { result.served ≡ Err fault }
        ensures cause { result.cause ≡ None }
        ensures back { result.back ≡ back }
    {
        ServerEnd {
            served: Err(fault),
            cause: None,
            back,
        }
    }
}

impl<K: Store> ServerEnd<K> {
    ghost use Rattle.std.specs.Prelude.{◌≡◌};
    ghost use Rattle.alm_serve.specs.Stores.{back_of, cause_of, served_of};

    /// What a server over an open store has done, without its run.
    pub fn of<T: Told + Drop, J: RunId, S: Drop>(end: StoreEnd<K, T, J, S>) -> Self
        ensures served { result.served ≡ served_of K.Store K.Device.Disk end }
        ensures cause { result.cause ≡ cause_of K.Store K.Device.Disk end }
        ensures back { result.back ≡ back_of K.Store K.Device.Disk end }
        ensures spent { K.Device.honest (K.disk result.back) → K.exhausted result.back →
            K.spent (K.Device.state (K.disk result.back)) }
    {
        let end = match end {
            StoreEnd::Unserved(fault, store) => ServerEnd::unserved(fault, store),
            StoreEnd::Served(served, run) => ServerEnd {
                served,
                cause: run.report.cause,
                back: run.report.keeper,
            },
        };
        // for the proof: the contract of `images` says when a device is at its last epoch
        end.back.images();
        end
    }
}
