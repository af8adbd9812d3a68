//! Which alarms a list consists of.

ghost use Rattle.std.specs.Prelude.{◌≡◌};
ghost use Rattle.alm_model.specs.Lists.{stands_in};

use crate::list::{List, WHEEL_SLOTS};
use alm_state::Row;
use alm_types::{Attr, Moment};

/// Whether an alarm is in a list, the measures aside.
pub(crate) fn stands_in(list: List, attr: &Attr, row: &Row) -> bool
    ensures { result ≡ stands_in list attr.now row.now }
{
    match list {
        List::Priority(priority) => {
            row.core.is_annunciated() && u32::from(attr.priority) == priority
        }
        List::Area(area) => row.core.is_annunciated() && u32::from(attr.area) == area,
        List::Wheel(slot) => match row.shelved_until {
            Some(deadline) => deadline % u64::from(WHEEL_SLOTS) == u64::from(slot),
            None => false,
        },
        List::Stale => row.core.is_annunciated(),
        List::Chatter => true,
    }
}

/// Which alarms are wanted.
#[derive(Clone, Copy)]
pub enum Wanted {
    /// Those of a list, the measures aside.
    Listed(List),
    /// Those whose shelving has ended by a moment.
    Due(Moment),
}

impl Wanted {
    ghost use Rattle.alm_model.specs.Ordering.{is_wanted};

    /// Whether an alarm is wanted.
    pub fn has(&self, attr: &Attr, row: &Row) -> bool
        ensures { result ≡ is_wanted self.now attr.now row.now }
    {
        match *self {
            Wanted::Listed(list) => stands_in(list, attr, row),
            Wanted::Due(moment) => match row.shelved_until {
                Some(deadline) => deadline <= moment.seconds(),
                None => false,
            },
        }
    }
}
