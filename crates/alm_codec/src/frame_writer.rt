//! Writing the text of a frame, after its gate.

ghost use Rattle.std.specs.Prelude.{◌≡◌, ◌+◌, ◌*◌, ◌<◌, ◌≤◌, ◌++◌, All, length, take, drop};
ghost use Rattle.alm_types.specs.Sizes.{most_entries};
ghost use Rattle.alm_codec.specs.Frames.{IsAskedAction, IsFrame, count_unit, first_text, frame_body, frame_head, frame_head_len, texts_of};
ghost use Rattle.alm_codec.specs.Versions.{IsSaid, sum_len, sum_text};
ghost use Rattle.alm_codec.specs.Writing.{Wrote};

use crate::action::put_asked;
use crate::asked::Asked;
use crate::fields::put;
use crate::frame_head::HEAD_LEN;
use crate::sums::sum_of;
use crate::version::Version;

/// Writes the texts of actions from a place on, and returns their end.
fn put_actions(out: &mut [u8], at: usize, actions: &[Asked], version: Version) -> usize
    requires { at + 16 * length actions.now ≤ length out.old }
    ensures end { result ≡ at + 16 * length actions.now }
    ensures text { Wrote out.old out.new at result (texts_of version actions.now) }
    ensures limits { All IsAskedAction actions.now }
{
    let mut end = at;
    for action in actions {
        end = put_asked(out, end, action, version);
    }
    end
}

/// The number that counts these actions.
fn counting(version: Version, actions: u16) -> u16
    requires { actions ≤ most_entries }
    ensures { result ≡ count_unit version * actions }
{
    match version {
        Version::V01 | Version::V02 => actions,
        Version::V03 => 255 * actions,
    }
}

/// Writes the number of a frame's first action at a place, and returns its end.
fn put_first(out: &mut [u8], at: usize, version: Version, first: u64) -> usize
    requires { at + 8 ≤ length out.old }
    ensures end { result + sum_len version ≡ at + 8 }
    ensures text { Wrote out.old out.new at result (first_text version first) }
{
    match version {
        Version::V01 | Version::V02 => put(out, at, &first.to_be_bytes()),
        Version::V03 => put(out, at, &((first % (1 << 32)) as u32).to_be_bytes()),
    }
}

/// Writes the head of a frame without its checksum, from the first byte on.
fn put_head(out: &mut [u8], version: Version, epoch: u64, first: u64, actions: u16)
    requires few { actions ≤ most_entries }
    requires room { 18 ≤ length out.old }
    ensures { Wrote out.old out.new 0 (frame_head_len version) (frame_head version epoch first actions) }
{
    let first_at = put(out, 0, &epoch.to_be_bytes());
    let count_at = put_first(out, first_at, version, first);
    put(out, count_at, &counting(version, actions).to_be_bytes());
}

/// Writes the checksum of the head before it and of the actions after it, where the version has checksums.
fn put_sum(out: &mut [u8], version: Version, actions: usize)
    requires { 18 + actions ≤ length out.old }
    ensures { Wrote out.old out.new (frame_head_len version) 18 (sum_text version
        (take (frame_head_len version) out.old ++ take actions (drop 18 out.old))) }
{
    match version {
        Version::V01 | Version::V02 => {}
        Version::V03 => {
            let (front, behind) = out.split_at(HEAD_LEN);
            let (head, _) = front.split_at(HEAD_LEN - 4);
            let (texts, _) = behind.split_at(actions);
            let sum = sum_of(head, texts);
            put(out, HEAD_LEN - 4, &sum.to_be_bytes());
        }
    }
}

/// Writes a frame's body in a version, without its gate: the next gate is closed.
pub fn write_frame_body(epoch: u64, first: u64, actions: &[Asked], out: &mut [u8], version: Version)
    requires some { 1 ≤ length actions.now }
    requires few { length actions.now ≤ most_entries }
    requires room { 19 + 16 * length actions.now ≤ length out.old }
    ensures text { out.new ≡ frame_body version epoch first actions.now ++
        drop (19 + 16 * length actions.now) out.old }
    // What is written is a frame, if each asker is one of the version.
    ensures limits { All (IsSaid version) actions.now → IsFrame version epoch first actions.now }
{
    let end = put_actions(out, HEAD_LEN, actions, version);
    put_head(out, version, epoch, first, actions.len() as u16);
    put_sum(out, version, 16 * actions.len());
    put(out, end, &[version.closed_gate()]);
}
