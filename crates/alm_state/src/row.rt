//! Rows.

use crate::core_state::Core;
use std::marker::Model;

/// What changes of an alarm.
///
/// A suppressed alarm has the core state Normal. Without a flag the condition holds exactly in Unack and Acked. The stamp is 0
/// exactly if the alarm is neither annunciated nor shelved.
#[derive(Clone, Copy, Debug, PartialEq, Eq)]
pub struct Row {
    /// The moment at which the shelving ends; `None` if the alarm isn't shelved.
    pub shelved_until: Option<u64>,
    /// The stamp of the last annunciation while annunciated, that of the shelving while shelved, else 0.
    pub stamp: u64,
    /// Whether the condition holds; it is followed under flags too.
    pub active: bool,
    pub core: Core,
    /// Suppressed by design.
    pub by_design: bool,
    pub out_of_service: bool,
}

impl Model for Row {
    ghost use Rattle.alm_state.specs.Rows.{State, IsState};

    ghost Value = { State };

    ghost view = { λ r. record {
      active = r.active;
      core = r.core;
      shelved_until = r.shelved_until;
      by_design = r.by_design;
      out_of_service = r.out_of_service;
      stamp = r.stamp;
    } };

    ghost invariant = { λ r. IsState
        (record {
          active = r.active;
          core = r.core;
          shelved_until = r.shelved_until;
          by_design = r.by_design;
          out_of_service = r.out_of_service;
          stamp = r.stamp;
        }) };

    ghost inverse = { λ s. record {
      active = s.active;
      core = s.core;
      shelved_until = s.shelved_until;
      by_design = s.by_design;
      out_of_service = s.out_of_service;
      stamp = s.stamp;
    } };
}

impl Row {
    ghost use Rattle.std.specs.Prelude.{◌≡◌, None, false};
    ghost use Rattle.alm_state.specs.Rows.{is_suppressed};
    ghost use Rattle.alm_state.specs.declared.core_state.Core.TheVariants.{Normal};

    /// An alarm without a condition.
    pub fn new() -> Self
        ensures { result ≡
            record {
              active = false;
              core = Normal;
              shelved_until = None;
              by_design = false;
              out_of_service
                  = false;
              stamp = 0;
            } }
    {
        Row {
            active: false,
            core: Core::Normal,
            shelved_until: None,
            by_design: false,
            out_of_service: false,
            stamp: 0,
        }
    }

    /// Whether some flag is set.
    pub fn is_suppressed(&self) -> bool
        ensures { result ≡ is_suppressed self.now }
    {
        self.shelved_until.is_some() || self.by_design || self.out_of_service
    }
}
