//! The body of a half in its buffer.

ghost use Rattle.std.specs.Prelude.{◌≡◌, ◌≤◌, ◌+◌, ◌++◌, ◌∷◌, [], length, take, drop, vec_capacity};
ghost use Rattle.alm_model.specs.Rules.{KeepsRules};
ghost use Rattle.alm_codec.specs.Image.{image_text, IsOf};
ghost use Rattle.alm_codec.specs.Versions.{closed_gate};
ghost use Rattle.alm_checkpoint.specs.Layouts.{image_size};
ghost use Rattle.alm_checkpoint.specs.Headers.{half_head_text};
ghost use Rattle.alm_checkpoint.specs.Cut.{head_before};
ghost use Rattle.alm_types.specs.Sizes.{most_actions};

use crate::filling::fill_to;
use alm_checkpoint::{HEAD_LEN, Half, HalfHead, Layout, image_sum};
use alm_codec::{Version, write_image};
use alm_model::Alarms;
use alm_plant::Plant;

/// Writes an image and the closed gate after it.
fn put_image(layout: &Layout, version: Version, plant: &Plant, out: &mut [u8])
    requires rules { KeepsRules plant.now }
    requires sizes { IsOf layout.now.rows layout.now.areas plant.now.panel.count plant.now }
    requires room { length out.old ≡ 1 + image_size layout.now }
    ensures text { out.new ≡ image_text plant.now ++ closed_gate version ∷ [] }
{
    write_image(plant, out);
    out[layout.image_len()] = version.closed_gate();
}

/// Writes the head of a half without its gate, the image of a plant and the closed gate after it.
pub fn put_half(
    layout: &Layout,
    half: Half,
    version: Version,
    epoch: u64,
    plant: &Plant,
    out: &mut [u8],
)
    requires rules { KeepsRules plant.now }
    requires sizes { IsOf layout.now.rows layout.now.areas plant.now.panel.count plant.now }
    requires count { plant.now.panel.count ≤ most_actions }
    requires room { length out.old ≡ 25 + image_size layout.now }
    ensures text { out.new ≡ half_head_text layout.now half (head_before version epoch plant.now) ++
        image_text plant.now ++ closed_gate version ∷ [] }
{
    let (front, behind) = out.split_at_mut(HEAD_LEN - 1);
    put_image(layout, version, plant, behind);
    let (image, _) = behind.split_at(layout.image_len());
    let head = HalfHead {
        epoch,
        version,
        count: plant.count(),
        sum: image_sum(version, image),
    };
    layout.write_half_head(half, &head, front);
}

/// Writes the body of a half to the start of a longer slice.
fn put_front(
    layout: &Layout,
    half: Half,
    version: Version,
    epoch: u64,
    plant: &Plant,
    out: &mut [u8],
)
    requires rules { KeepsRules plant.now }
    requires sizes { IsOf layout.now.rows layout.now.areas plant.now.panel.count plant.now }
    requires count { plant.now.panel.count ≤ most_actions }
    requires room { 25 + image_size layout.now ≤ length out.old }
    ensures text { out.new ≡ (half_head_text layout.now half (head_before version epoch plant.now) ++
        image_text plant.now ++ closed_gate version ∷ []) ++ drop (25 + image_size layout.now) out.old }
{
    let run = HEAD_LEN + layout.image_len();
    put_half(layout, half, version, epoch, plant, &mut out[..run]);
}

/// The same in the buffer of a run, which is as long.
fn put_in_run(
    layout: &Layout,
    half: Half,
    version: Version,
    epoch: u64,
    plant: &Plant,
    buffer: &mut Vec<u8>,
)
    requires rules { KeepsRules plant.now }
    requires sizes { IsOf layout.now.rows layout.now.areas plant.now.panel.count plant.now }
    requires count { plant.now.panel.count ≤ most_actions }
    requires room { 25 + image_size layout.now ≤ length buffer.old.items }
    ensures text { take (25 + image_size layout.now) buffer.new.items ≡
        half_head_text layout.now half (head_before version epoch plant.now) ++
        image_text plant.now ++ closed_gate version ∷ [] }
    ensures long { length buffer.new.items ≡ length buffer.old.items }
    ensures room { vec_capacity buffer.new ≡ vec_capacity buffer.old }
{
    put_front(layout, half, version, epoch, plant, buffer);
}

/// Writes the body of a half in an epoch and a version to the start of the buffer of a run, which has room for it.
pub fn write_half(
    layout: &Layout,
    half: Half,
    version: Version,
    epoch: u64,
    plant: &Plant,
    buffer: &mut Vec<u8>,
)
    requires rules { KeepsRules plant.now }
    requires sizes { IsOf layout.now.rows layout.now.areas plant.now.panel.count plant.now }
    requires count { plant.now.panel.count ≤ most_actions }
    requires room { 25 + image_size layout.now ≤ vec_capacity buffer.old }
    ensures text { take (25 + image_size layout.now) buffer.new.items ≡
        half_head_text layout.now half (head_before version epoch plant.now) ++
        image_text plant.now ++ closed_gate version ∷ [] }
    ensures long { 25 + image_size layout.now ≤ length buffer.new.items }
    ensures room { vec_capacity buffer.new ≡ vec_capacity buffer.old }
{
    fill_to(buffer, HEAD_LEN + layout.image_len());
    put_in_run(layout, half, version, epoch, plant, buffer);
}
