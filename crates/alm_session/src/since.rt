//! The reply to SINCE, into a buffer.

ghost use Rattle.std.specs.Prelude.{◌≡◌, ◌≤◌, ◌+◌, ◌*◌, ◌++◌, length, vec_capacity, vec_len};
ghost use Rattle.std.specs.List.{flat_map};
ghost use Rattle.alm_events.specs.Events.{most_told};
ghost use Rattle.alm_lines.specs.Parts.{text_of_parts};
ghost use Rattle.alm_lines.specs.Since.{event_text, recalled_text};
ghost use Rattle.alm_session.specs.Outputs.{since_limit};

use crate::told::put_parts;
use alm_events::Recalled;
use alm_lines::{Part, event_parts, since_head};
use alm_types::Event;

/// Puts parts, for which there must be room.
fn put_all(text: &mut Vec<u8>, parts: &[Part<'_>])
    requires { vec_len text.old + length (text_of_parts parts.now) ≤ vec_capacity text.old }
    ensures items { text.new.items ≡ text.old.items ++ text_of_parts parts.now }
    ensures len { vec_len text.new ≡ vec_len text.old + length (text_of_parts parts.now) }
    ensures room { vec_capacity text.old ≤ vec_capacity text.new }
{
    match put_parts(text, parts) {
        Ok(()) => {}
        Err(_) => unreachable!(),
    }
}

/// Puts each event after a space, for which there must be room for 48 bytes each.
fn put_events(text: &mut Vec<u8>, events: &[Event])
    requires { vec_len text.old + 48 * length events.now ≤ vec_capacity text.old }
    ensures items { text.new.items ≡ text.old.items ++ flat_map event_text events.now }
    ensures len { vec_len text.new ≤ vec_len text.old + 48 * length events.now }
    ensures room { vec_capacity text.old ≤ vec_capacity text.new }
{
    for event in events {
        put_all(text, &event_parts(event));
    }
}

/// Puts what happened, for which there must be room for 12,388 bytes.
pub fn put_since(text: &mut Vec<u8>, id: u32, told: Recalled, events: &[Event])
    requires few { length events.now ≤ most_told }
    requires room { vec_len text.old + since_limit ≤ vec_capacity text.old }
    ensures items { text.new.items ≡
        text.old.items ++ recalled_text id told.count told.first events.now }
    ensures len { vec_len text.new ≤ vec_len text.old + since_limit }
    ensures room { vec_capacity text.old ≤ vec_capacity text.new }
{
    put_all(
        text,
        &since_head(id, told.count, told.first, events.len() as u64),
    );
    put_events(text, events);
    put_all(text, &[Part::Word("\n")]);
}
