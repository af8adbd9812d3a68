//! Which run it is.

use std::marker::Brand;

/// Which run it is: its histories, the plant and the device that it begins with, and what its store makes of bytes. A type carries
/// it, so what is known of two runs never meets: the one call of a program that opens a run takes it from a `Brand`.
pub trait RunId {
    ghost use Rattle.std.specs.Prelude.{ℕ, List};
    ghost use Rattle.logbook.specs.Pages.{Book};
    ghost use Rattle.alm_disk.specs.Device.{DeviceState};
    ghost use Rattle.alm_model.specs.Plant.{Condensed};

    /// The book that holds the history of accepted actions.
    ghost book: { Book };

    /// The book that holds the history of moments.
    ghost moments: { Book };

    /// The plant that the run begins with.
    ghost base: { Condensed };

    /// The device that it begins with.
    ghost first: { DeviceState };

    /// The device keeps to its model.
    ghost honest: { Type 0 };

    /// These bytes of the device encode this plant.
    ghost recovers: { List ℕ → Condensed → Type 0 };
}

impl RunId for Brand {
    ghost use Rattle.std.specs.Prelude.{[], false};

    ghost book = { record { number = 0; log_name = 0; cells_name = 0 } };

    ghost moments = { record { number = 0; log_name = 0; cells_name = 0 } };

    ghost base = { record {
      panel = record { now = 0; count = 0; next_stamp = 1; attrs = []; rows = [] };
      kept = record
          { ages = []; moments = [] };
      floods = [];
    } };

    ghost first = { record { bytes = []; pending = λ place. false; faulted = false } };

    ghost honest = { ⊥ };

    ghost recovers = { λ bytes plant. ⊥ };
}
