//! Chattering alarms.

ghost use Rattle.std.specs.Prelude.{◌≡◌, ◌≤◌, length, vec_capacity};
ghost use Rattle.alm_measure.specs.Metrics.{chattering_at};
ghost use Rattle.alm_types.specs.Sizes.{most_alarms};

use alm_model::{List, Recent};
use alm_types::Moment;

/// The vector then holds the alarms that chatter, by number.
pub fn fill_chattering(alarms: &[Recent], now: Moment, out: &mut Vec<u32>)
    requires few { length alarms.now ≤ most_alarms }
    requires room { length alarms.now ≤ vec_capacity out.old }
    ensures list { out.new.items ≡ chattering_at now alarms.now }
    ensures room { vec_capacity out.new ≡ vec_capacity out.old }
{
    out.clear();
    for (number, recent) in alarms.iter().enumerate() {
        if recent.passes(List::Chatter, now) {
            out.push_reserved(number as u32);
        }
    }
}
