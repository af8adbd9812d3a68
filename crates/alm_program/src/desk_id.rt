//! Which run of a desk it is.

use std::marker::Brand;

/// Which run of a desk it is: the plant that it begins with, and whether its device keeps to the model. A type carries it, so what is
/// known of a run at its begin is known of it at its end.
pub trait DeskId {
    ghost use Rattle.alm_model.specs.Plant.{Condensed};

    /// The plant that the run begins with.
    ghost base: { Condensed };

    /// The device keeps to its model.
    ghost honest: { Type 0 };
}

impl DeskId for Brand {
    ghost use Rattle.std.specs.Prelude.{[]};

    ghost base = { record {
      panel = record { now = 0; count = 0; next_stamp = 1; attrs = []; rows = [] };
      kept = record
          { ages = []; moments = [] };
      floods = [];
    } };

    ghost honest = { ⊥ };
}
