//! The text of a frame, after its gate.

ghost use Rattle.std.specs.Prelude.{◌≡◌, ◌+◌, ◌*◌, ◌<◌, ◌≤◌, ◌++◌, ◌∷◌, [], ℕ, List, length, drop, IfOk, OnErr, Ok, vec_len, vec_capacity};
ghost use Rattle.alm_codec.specs.declared.asked.Asked.{Asked as AnAsked};
ghost use Rattle.alm_codec.specs.Reading.{Gives, FindsOrDamage};
ghost use Rattle.alm_codec.specs.Frames.{IsFrame, asked_actions, frame_text, with_front, actions_at, frame_at, IsBefore};
ghost use Rattle.alm_codec.specs.Versions.{AreBorne};
ghost use Rattle.alm_types.specs.Sizes.{most_entries};

use crate::action::{ACTION_LEN, asked_of};
use crate::asked::Asked;
use crate::bytes_left::BytesLeft;
use crate::damage::Damage;
use crate::frame_head::read_head;
use crate::version::Version;

/// Reads `count` actions after the others, and returns the bytes after them.
fn actions_of<'a>(
    count: u16,
    bytes: &'a [u8],
    actions: &mut Vec<Asked>,
    version: Version,
) -> Result<&'a [u8], BytesLeft>
    requires inside { 16 * count ≤ length bytes.now }
    requires room { vec_len actions.old + count ≤ vec_capacity actions.old }
    ensures actions { Gives (λ rest. (actions.new.items, rest.now)) result
        (with_front actions.old.items (actions_at version count bytes.now)) }
    ensures left { IfOk result (λ rest. length rest.now + 16 * count ≡ length bytes.now) }
    ensures room { vec_capacity actions.new ≡ vec_capacity actions.old }
{
    let mut rest = bytes;
    for _ in 0..count {
        let (text, after) = rest.split_at(ACTION_LEN);
        let Some(asked) = asked_of(text, version) else {
            return Err(BytesLeft(rest.len()));
        };
        let Asked { asker, action } = asked;
        actions.push_reserved(Asked { asker, action });
        rest = after;
    }
    Ok(rest)
}

/// Reads a frame: the vector then holds its actions. Returns the bytes from the next gate on.
#[tactic(auto, unfolding(crate::specs::Frames::frame_at))]
fn frame_of<'a>(
    bytes: &'a [u8],
    epoch: u64,
    count: u64,
    actions: &mut Vec<Asked>,
    version: Version,
) -> Result<&'a [u8], BytesLeft>
    requires { most_entries ≤ vec_capacity actions.old }
    ensures actions { Gives (λ rest. (actions.new.items, rest.now)) result
        (frame_at version epoch count bytes.now) }
    ensures left { IfOk result (λ rest. length rest.now ≤ length bytes.now) }
    ensures room { vec_capacity actions.new ≡ vec_capacity actions.old }
{
    actions.clear();
    let (_, number, rest) = read_head(bytes, epoch, count, 0, version)?;
    actions_of(number, rest, actions, version)
}

/// Reads the frame of an epoch after `count` actions, starting after its gate, in a half of a version. The vector then
/// holds its actions, or none if the frame is damaged. Returns the place of the next gate.
pub fn read_frame(
    bytes: &[u8],
    epoch: u64,
    count: u64,
    actions: &mut Vec<Asked>,
    version: Version,
) -> Result<usize, Damage>
    requires { most_entries ≤ vec_capacity actions.old }
    // These bytes are the text of what is read, and the next gate is after it.
    ensures found { IfOk result
        (λ end. IsFrame version epoch (count + 1) actions.new.items ×
        AreBorne version (asked_actions actions.new.items) ×
        IsBefore (frame_text version epoch (count + 1) actions.new.items) end bytes.now) }
    // What is encoded so is read.
    ensures only { (list : List AnAsked) (gate : ℕ) (rest : List ℕ) →
        IsFrame version epoch (count + 1) list → AreBorne version (asked_actions list) →
        bytes.now ≡ frame_text version epoch (count + 1) list ++ gate ∷ rest →
        (result ≡ Ok (18 + 16 * length list)) × (actions.new.items ≡ list) }
    // Which field is damaged.
    ensures exact { FindsOrDamage bytes.now (λ end. (actions.new.items, drop end bytes.now)) result
        (frame_at version epoch count bytes.now) }
    // The vector keeps no action of a damaged frame.
    ensures none { OnErr result (actions.new.items ≡ []) }
    ensures room { vec_capacity actions.new ≡ vec_capacity actions.old }
{
    match frame_of(bytes, epoch, count, actions, version) {
        Ok(rest) => Ok(bytes.len() - rest.len()),
        Err(left) => {
            actions.clear();
            Err(left.of(bytes))
        }
    }
}
