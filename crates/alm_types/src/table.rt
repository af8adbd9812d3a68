//! The table of the alarms.

ghost use Rattle.std.specs.Prelude.{◌≡◌, ◌<◌, length, All, nat_le, position, IfSome, IfNone};
ghost use Rattle.alm_types.specs.Sizes.{most_alarms, most_areas};

use crate::attr::Attr;
use crate::table_fault::TableFault;
use std::marker::Model;

/// The most alarms of a plant.
pub const MOST_ALARMS: usize = 16_384;

/// The most areas of a plant.
pub const MOST_AREAS: u8 = 64;

/// The alarms of a plant by number, and how many areas there are.
#[derive(Drop)]
pub struct Table {
    alarms: Vec<Attr>,
    areas: u8,
}

impl Model for Table {
    ghost use Rattle.alm_types.specs.Tables.{Listing, IsTable};

    ghost Value = { Listing };

    ghost view = { λ t. record { alarms = t.alarms.items; areas = t.areas } };

    ghost invariant = { λ t. IsTable (record { alarms = t.alarms.items; areas = t.areas }) };
}

/// The first alarm whose area does not exist.
fn outside(alarms: &[Attr], areas: u8) -> Option<usize>
    ensures first { result ≡ position (λ a. nat_le areas a.area) alarms.now }
    ensures none { IfNone result (All (λ a. a.area < areas) alarms.now) }
    ensures within { IfSome result (λ i. i < length alarms.now) }
{
    alarms.iter().position(|attr| attr.area >= areas)
}

impl Table {
    ghost use Rattle.std.specs.Prelude.{◌≡◌, ◌≤◌, ◌<◌, length, All, IfOk, IfErr, OnOk, Some, None};
    ghost use Rattle.alm_types.specs.Tables.{Listing, IsTable, table_fault};

    /// The table, or the first thing that is wrong with it.
    pub fn new(alarms: Vec<Attr>, areas: u8) -> Result<Self, TableFault>
        ensures table { IfOk result (λ t. t ≡ record { alarms = alarms.items; areas = areas }) }
        ensures good { OnOk result (table_fault alarms.items areas ≡ None) }
        ensures fault { IfErr result (λ fault. table_fault alarms.items areas ≡ Some fault) }
    {
        if alarms.is_empty() {
            return Err(TableFault::NoRows);
        }
        if alarms.len() > MOST_ALARMS {
            return Err(TableFault::TooManyRows);
        }
        if areas == 0 || areas > MOST_AREAS {
            return Err(TableFault::Areas);
        }
        if let Some(number) = outside(&alarms, areas) {
            return Err(TableFault::AreaOf(number as u32));
        }
        Ok(Table { alarms, areas })
    }

    pub fn areas(&self) -> u8
        ensures areas { result ≡ self.now.areas }
        ensures limits { (1 ≤ result) × (result ≤ most_areas) }
    {
        self.areas
    }

    pub fn alarms(&self) -> &[Attr]
        ensures alarms { result.now ≡ self.now.alarms }
        ensures table { IsTable self.now }
        ensures few { length result.now ≤ most_alarms }
        ensures areas { All (λ a. a.area < self.now.areas) result.now }
    {
        &self.alarms
    }
}
