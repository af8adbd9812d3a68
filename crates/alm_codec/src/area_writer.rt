//! Writing the areas of an image.

ghost use Rattle.std.specs.Prelude.{◌≡◌, ◌+◌, ◌*◌, ◌≤◌, ◌<◌, [], length, slice_get, unwrap_or};
ghost use Rattle.alm_model.specs.Rules.{KeepsRules};
ghost use Rattle.alm_codec.specs.Writing.{Wrote};
ghost use Rattle.alm_codec.specs.Image.{words, area_text_of, area_texts};

use crate::alarm_writer::flag_code;
use crate::fields::{put, put_word};
use alm_model::Alarms;

/// Writes the ages of an area.
fn put_ages<P: Alarms>(out: &mut [u8], at: usize, plant: &P, area: u32) -> usize
    requires rules { KeepsRules (P.plant plant.now) }
    requires area { area < length (P.plant plant.now).floods }
    requires room { at + 4800 ≤ length out.old }
    ensures end { result ≡ at + 4800 }
    ensures text { Wrote out.old out.new at result
        (words (unwrap_or (slice_get (P.plant plant.now).kept.ages area) [])) }
{
    let mut end = at;
    for age in 0..600 {
        end = put_word(out, end, plant.age(area, age));
    }
    end
}

/// Writes an area.
fn put_area<P: Alarms>(out: &mut [u8], at: usize, plant: &P, area: u32) -> usize
    requires rules { KeepsRules (P.plant plant.now) }
    requires area { area < length (P.plant plant.now).floods }
    requires room { at + 4801 ≤ length out.old }
    ensures end { result ≡ at + 4801 }
    ensures text { Wrote out.old out.new at result
        (area_text_of (slice_get (P.plant plant.now).floods area)
        (slice_get (P.plant plant.now).kept.ages area)) }
{
    let (_, flood) = plant.window(area);
    let ages_at = put(out, at, &[flag_code(flood)]);
    put_ages(out, ages_at, plant, area)
}

/// Writes the areas, `areas` in number.
pub fn put_areas<P: Alarms>(out: &mut [u8], at: usize, plant: &P, areas: u8) -> usize
    requires rules { KeepsRules (P.plant plant.now) }
    requires areas { length (P.plant plant.now).floods ≡ areas }
    requires room { at + areas * 4801 ≤ length out.old }
    ensures end { result ≡ at + areas * 4801 }
    ensures text { Wrote out.old out.new at result
        (area_texts (P.plant plant.now).floods (P.plant plant.now).kept.ages) }
{
    let mut end = at;
    for area in 0..areas {
        end = put_area(out, end, plant, area as u32);
    }
    end
}
