//! The alarms of a list by number, one after the other.

ghost use Rattle.std.specs.Prelude.{◌≡◌, ◌≤◌, ◌<◌, ◌-◌, true, filter, length};
ghost use Rattle.std.specs.List.{range_with_len};
ghost use Rattle.std.specs.Iterator.{YieldsFirst, item_count};
ghost use Rattle.alm_model.specs.Measured.{is_measured, measured_by};
ghost use Rattle.alm_types.specs.Sizes.{most_alarms};

use crate::list::List;
use crate::lists::is_measured;
use crate::recent::Recent;
use alm_state::Row;
use alm_types::{Attr, Moment};
use std::marker::Model;

/// The alarms of a list that are left, by number.
#[derive(Drop)]
pub struct AlarmsByNumber<'a> {
    attrs: &'a [Attr],
    rows: &'a [Row],
    moments: &'a [Recent],
    list: List,
    now: Moment,
    /// The first number that has not been visited.
    at: usize,
}

impl<'a> Model for AlarmsByNumber<'a> {
    ghost use Rattle.std.specs.Prelude.{ℕ, List};

    ghost Value = { List ℕ };

    ghost use Rattle.alm_model.specs.Remaining.{alarms_left, IsInStep};

    ghost view = { alarms_left };

    ghost invariant = { IsInStep };
}

impl<'a> AlarmsByNumber<'a> {
    /// Those of a list at a moment; attributes, rows and last moments of the alarms are by number.
    pub fn new(
        attrs: &'a [Attr],
        rows: &'a [Row],
        moments: &'a [Recent],
        list: List,
        now: Moment,
    ) -> Self
        requires attrs { length attrs.now ≡ length rows.now }
        requires moments { length moments.now ≡ length rows.now }
        requires few { length rows.now ≤ most_alarms }
        ensures { result ≡ measured_by list now attrs.now rows.now moments.now }
    {
        AlarmsByNumber {
            attrs,
            rows,
            moments,
            list,
            now,
            at: 0,
        }
    }
}

/// The first number from a place on whose alarm is in a list, or how many alarms there are.
fn first_from(
    attrs: &[Attr],
    rows: &[Row],
    moments: &[Recent],
    list: List,
    now: Moment,
    from: usize,
) -> usize
    requires attrs { length attrs.now ≡ length rows.now }
    requires moments { length moments.now ≡ length rows.now }
    requires from { from ≤ length rows.now }
    ensures within { result ≤ length rows.now }
    ensures skipped { filter (is_measured list now attrs.now rows.now moments.now)
        (range_with_len from (length rows.now - from)) ≡
        filter (is_measured list now attrs.now rows.now moments.now)
        (range_with_len result (length rows.now - result)) }
    ensures found { result < length rows.now →
        is_measured list now attrs.now rows.now moments.now result ≡ true }
{
    for i in from..rows.len() {
        if is_measured(attrs, rows, moments, list, now, i) {
            return i;
        }
    }
    rows.len()
}

impl<'a> Iterator for AlarmsByNumber<'a> {
    type Item = u32;

    ghost next_gives = { YieldsFirst (λ s. s) };

    ghost remaining = { item_count (λ s. s) };

    fn next(&mut self) -> Option<u32> {
        let number = first_from(
            self.attrs,
            self.rows,
            self.moments,
            self.list,
            self.now,
            self.at,
        );
        if number == self.rows.len() {
            self.at = number;
            return None;
        }
        self.at = number + 1;
        Some(number as u32)
    }
}
