//! Laws of the runs: each function does nothing, and its contract is the law.

ghost use Rattle.std.specs.Prelude.{List};
ghost use Rattle.alm_model.specs.Plant.{Condensed};
ghost use Rattle.alm_threads.specs.Outages.{ByOutage, KeepsReported, Outages};

use alm_store::Store;

/// Consider any number of runs over a store, each opened on what a power failure left of the one before, at whatever moment.
/// The plant at the end is the first run's plant after all that each run had reported when its power failed, run after run. After
/// those of each come others that it had accepted, or none.
pub fn what_was_told_outlasts_outages<K: Store>()
    ensures { (base last : Condensed) (runs : List ByOutage) →
        Outages K.recovers base runs last → ∥ KeepsReported base runs last ∥₁ }
{}
