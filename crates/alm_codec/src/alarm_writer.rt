//! Writing an alarm of an image.

ghost use Rattle.std.specs.Prelude.{◌≡◌, ◌+◌, ◌≤◌, ◌<◌, ◌++◌, length, slice_index_or};
ghost use Rattle.std.specs.Int.{w64, cast_unsigned};
ghost use Rattle.alm_types.specs.Texts.{with_padding};
ghost use Rattle.alm_codec.specs.Actions.{switch_number};
ghost use Rattle.alm_codec.specs.Writing.{Wrote};
ghost use Rattle.alm_codec.specs.Image.{kind_code, core_code, words, placed_text, settings_text, attr_text, row_text};

use crate::fields::{put, put_word, put_zeros};
use alm_state::{Core, Row};
use alm_types::{Attr, Kind, Moment};

fn kind_code(kind: Kind) -> u8
    ensures { result ≡ kind_code kind }
{
    match kind {
        Kind::High => 1,
        Kind::Low => 2,
        Kind::Discrete => 3,
    }
}

fn core_code(core: Core) -> u8
    ensures { result ≡ core_code core }
{
    match core {
        Core::Normal => 0,
        Core::Unack => 1,
        Core::Acked => 2,
        Core::RtnUnack => 3,
        Core::LatchUnack => 4,
        Core::LatchAcked => 5,
    }
}

/// A flag: 1 on, 0 off.
pub fn flag_code(flag: bool) -> u8
    ensures { result ≡ switch_number flag }
{
    flag as u8
}

/// Writes a text after its length, with zeros up to a size.
fn put_placed(out: &mut [u8], at: usize, text: &[u8], size: usize) -> usize
    requires fits { length text.now ≤ size }
    requires small { size < 256 }
    requires room { at + 1 + size ≤ length out.old }
    ensures end { result ≡ at + 1 + size }
    ensures text { Wrote out.old out.new at result (placed_text size text.now) }
{
    let text_at = put(out, at, &[text.len() as u8]);
    let rest_at = put(out, text_at, text);
    let end = text_at + size;
    put_zeros(out, rest_at, end);
    end
}

/// The setpoint in two's complement.
fn setpoint_word(attr: &Attr) -> u64
    ensures { result ≡ cast_unsigned w64 attr.now.setpoint }
{
    attr.setpoint.value().cast_unsigned()
}

/// Writes the attributes before the tag.
fn put_settings(out: &mut [u8], at: usize, attr: &Attr) -> usize
    requires { at + 24 ≤ length out.old }
    ensures end { result ≡ at + 24 }
    ensures text { Wrote out.old out.new at result (settings_text attr.now) }
{
    let setpoint_at = put(
        out,
        at,
        &[
            kind_code(attr.kind),
            attr.priority,
            attr.area,
            flag_code(attr.latching),
        ],
    );
    let deadband_at = put_word(out, setpoint_at, setpoint_word(attr));
    let longest_at = put_word(out, deadband_at, attr.deadband);
    put(out, longest_at, &attr.max_shelve.to_be_bytes())
}

/// Writes attributes.
fn put_attr(out: &mut [u8], at: usize, attr: &Attr) -> usize
    requires { at + 138 ≤ length out.old }
    ensures end { result ≡ at + 138 }
    ensures text { Wrote out.old out.new at result (attr_text attr.now) }
{
    let tag_at = put_settings(out, at, attr);
    let text_at = put_placed(out, tag_at, attr.tag.as_bytes(), 32);
    put_placed(out, text_at, attr.text.as_bytes(), 80)
}

/// The seconds of a moment, zero if there is none.
fn seconds_of(moments: &[Moment], index: usize) -> u64
    ensures { result ≡ slice_index_or moments.now index 0 }
{
    match moments.get(index) {
        Some(moment) => moment.seconds(),
        None => 0,
    }
}

/// Writes at most three moments, with zeros after them.
fn put_moments(out: &mut [u8], at: usize, moments: &[Moment]) -> usize
    requires few { length moments.now ≤ 3 }
    requires room { at + 24 ≤ length out.old }
    ensures end { result ≡ at + 24 }
    ensures text { Wrote out.old out.new at result (words (with_padding 3 moments.now)) }
{
    let second_at = put_word(out, at, seconds_of(moments, 0));
    let third_at = put_word(out, second_at, seconds_of(moments, 1));
    put_word(out, third_at, seconds_of(moments, 2))
}

/// Writes what changes of an alarm, and its last moments.
fn put_row(out: &mut [u8], at: usize, row: &Row, moments: &[Moment]) -> usize
    requires few { length moments.now ≤ 3 }
    requires room { at + 44 ≤ length out.old }
    ensures end { result ≡ at + 44 }
    ensures text { Wrote out.old out.new at result (row_text row.now moments.now) }
{
    let codes = [
        flag_code(row.active),
        core_code(row.core),
        row.flags(),
        moments.len() as u8,
    ];
    let deadline_at = put(out, at, &codes);
    let stamp_at = put_word(out, deadline_at, row.shelved_until.unwrap_or(0));
    let moments_at = put_word(out, stamp_at, row.stamp);
    put_moments(out, moments_at, moments)
}

/// Writes an alarm.
pub fn put_alarm(out: &mut [u8], at: usize, attr: &Attr, row: &Row, moments: &[Moment]) -> usize
    requires few { length moments.now ≤ 3 }
    requires room { at + 182 ≤ length out.old }
    ensures end { result ≡ at + 182 }
    ensures text { Wrote out.old out.new at result
        (attr_text attr.now ++ row_text row.now moments.now) }
{
    let row_at = put_attr(out, at, attr);
    put_row(out, row_at, row, moments)
}
