//! Writing an image.

ghost use Rattle.std.specs.Prelude.{◌≡◌, ◌+◌, ◌*◌, ◌≤◌, ◌<◌, ◌++◌, length, drop, slice_get};
ghost use Rattle.alm_model.specs.Rules.{KeepsRules};
ghost use Rattle.alm_codec.specs.Writing.{Wrote};
ghost use Rattle.alm_codec.specs.Image.{alarm_text_of, alarm_texts, image_text, image_len, IsImageText};

use crate::alarm_writer::put_alarm;
use crate::area_writer::put_areas;
use crate::fields::put_word;
use alm_model::Alarms;
use alm_types::AlarmId;

/// Writes the alarm of a number.
fn put_numbered<P: Alarms>(out: &mut [u8], at: usize, plant: &P, id: AlarmId) -> usize
    requires rules { KeepsRules (P.plant plant.now) }
    requires there { id.0 < length (P.plant plant.now).panel.rows }
    requires room { at + 182 ≤ length out.old }
    ensures end { result ≡ at + 182 }
    ensures text { Wrote out.old out.new at result
        (alarm_text_of (slice_get (P.plant plant.now).panel.attrs id.0)
        (slice_get (P.plant plant.now).panel.rows id.0)
        (slice_get (P.plant plant.now).kept.moments id.0)) }
{
    let attr = plant.attr(id).unwrap();
    let row = plant.state(id).unwrap();
    put_alarm(out, at, &attr, &row, plant.moments(id))
}

/// Writes the alarms, `alarms` in number.
fn put_alarms<P: Alarms>(out: &mut [u8], at: usize, plant: &P, alarms: u32)
    requires rules { KeepsRules (P.plant plant.now) }
    requires alarms { length (P.plant plant.now).panel.rows ≡ alarms }
    requires room { at + length (P.plant plant.now).panel.rows * 182 ≤ length out.old }
    ensures text { Wrote out.old out.new at (at + length (P.plant plant.now).panel.rows * 182)
        (alarm_texts (P.plant plant.now).panel.attrs (P.plant plant.now).panel.rows
        (P.plant plant.now).kept.moments) }
{
    let mut end = at;
    for alarm in 0..alarms {
        end = put_numbered(out, end, plant, AlarmId(alarm));
    }
}

/// How many bytes the image of a plant of these rows and areas has.
pub fn image_len(rows: u32, areas: u8) -> u64
    ensures { result ≡ image_len rows areas }
{
    16 + areas as u64 * 4801 + rows as u64 * 182
}

/// Writes the image of a plant at the start of the bytes; the bytes after it stay.
pub fn write_image<P: Alarms>(plant: &P, out: &mut [u8])
    requires { image_len (length (P.plant plant.now).panel.rows)
        (length (P.plant plant.now).floods) ≤ length out.old }
    ensures text { out.new ≡
        image_text (P.plant plant.now) ++
        drop (image_len (length (P.plant plant.now).panel.rows) (length (P.plant plant.now).floods))
        out.old }
    // It can be read back.
    ensures image { IsImageText (P.plant plant.now) (image_text (P.plant plant.now)) }
{
    let alarms = plant.alarms() as u32;
    let areas = plant.areas() as u8;
    let next_stamp_at = put_word(out, 0, plant.now().seconds());
    let areas_at = put_word(out, next_stamp_at, plant.next_stamp());
    let alarms_at = put_areas(out, areas_at, plant, areas);
    put_alarms(out, alarms_at, plant, alarms);
}
