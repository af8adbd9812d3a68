//! The text of an action.

ghost use Rattle.std.specs.Prelude.{◌≡◌, ◌+◌, ◌≤◌, ◌++◌, ◌∷◌, length, drop, IfOk, IfErr, Ok};
ghost use Rattle.alm_types.specs.declared.action.Action.{Action as AnAction};
ghost use Rattle.alm_types.specs.Actions.{IsAction, alarm_of};
ghost use Rattle.alm_codec.specs.Actions.{action_text, argument_of, asked_at, asked_text, kind_of, action_at, action_in, action_meant, reading_at, text_by};
ghost use Rattle.alm_codec.specs.Versions.{IsBorne};
ghost use Rattle.alm_codec.specs.Writing.{Wrote};

use crate::asked::Asked;
use crate::asker::Asker;
use crate::damage::Damage;
use crate::fields::put;
use crate::version::Version;
use alm_types::{Action, AlarmId, Moment, Reading};

/// How many bytes the text of an action has.
pub const ACTION_LEN: usize = 16;

/// The value that a word encodes, if it is within its limits.
fn reading(word: u64) -> Option<Reading>
    ensures { result ≡ reading_at word }
{
    Reading::new(word.cast_signed())
}

/// The action that a kind, an alarm and an argument encode.
fn meaning(kind: u8, alarm: u32, argument: u64) -> Option<Action>
    ensures { result ≡ action_meant kind alarm argument }
{
    let id = AlarmId(alarm);
    match (kind, argument) {
        (1, seconds) if alarm == 0 => Moment::new(seconds).map(Action::Clock),
        (2, value) => reading(value).map(|value| Action::Value(id, value)),
        (3, 0) => Some(Action::Ack(id)),
        (4, 0) => Some(Action::Reset(id)),
        (5, seconds) => u32::try_from(seconds)
            .ok()
            .map(|seconds| Action::Shelve(id, seconds)),
        (6, 0) => Some(Action::Unshelve(id)),
        (7, 0 | 1) => Some(Action::Oos(id, argument == 1)),
        (8, 0 | 1) => Some(Action::Design(id, argument == 1)),
        (9, priority) => u32::try_from(priority)
            .ok()
            .map(|priority| Action::SetPriority(id, priority)),
        (10, value) => reading(value).map(|value| Action::SetSetpoint(id, value)),
        _ => None,
    }
}

/// The action of any version whose text is a kind, a byte that says nothing and all of these bytes.
fn any_action_of(kind: u8, text: &[u8]) -> Option<Action>
    ensures { result ≡ action_at (kind ∷ 0 ∷ text.now) }
{
    match text {
        [0, 0, a, b, c, d, rest @ ..] if rest.len() == 8 => {
            let argument = u64::from_be_bytes([
                rest[0], rest[1], rest[2], rest[3], rest[4], rest[5], rest[6], rest[7],
            ]);
            meaning(kind, u32::from_be_bytes([*a, *b, *c, *d]), argument)
        }
        _ => None,
    }
}

/// The same, if the version has it.
fn action_behind(kind: u8, text: &[u8], version: Version) -> Option<Action>
    ensures { result ≡ action_in version (kind ∷ 0 ∷ text.now) }
{
    let action = any_action_of(kind, text)?;
    if version.bears(&action) {
        Some(action)
    } else {
        None
    }
}

/// The action of a version whose text is all of these bytes, and says nothing of who asked.
fn action_of(text: &[u8], version: Version) -> Option<Action>
    ensures { result ≡ action_in version text.now }
{
    match text {
        [kind, 0, rest @ ..] => action_behind(*kind, rest, version),
        _ => None,
    }
}

/// The action of a version whose text is all of these bytes, and who asked for it.
pub fn asked_of(text: &[u8], version: Version) -> Option<Asked>
    ensures { result ≡ asked_at version text.now }
{
    let [kind, asker, rest @ ..] = text else {
        return None;
    };
    let asker = Asker::of_byte(*asker, version)?;
    let action = action_behind(*kind, rest, version)?;
    Some(Asked { asker, action })
}

/// The action of a version whose text is all of these bytes, and says nothing of who asked.
pub fn read_action(text: &[u8], version: Version) -> Result<Action, Damage>
    // What is read is encoded so.
    ensures found { IfOk result (λ a. IsAction a × (text.now ≡ action_text a) × IsBorne version a) }
    // What is encoded so is read.
    ensures only { (a : AnAction) → IsAction a → IsBorne version a → text.now ≡ action_text a →
        result ≡ Ok a }
    // If no action of the version has that text, it is damaged at its first byte.
    ensures damaged { IfErr result (λ damage. damage.at ≡ 0) }
{
    action_of(text, version).ok_or(Damage { at: 0 })
}

/// The numbers of an action are within their types.
fn know_limits(action: &Action)
    ensures { IsAction action.now }
{
    // for the proof: each number is read once, so that it is known to be within its type
    alarm_of(action);
    match action {
        Action::Clock(moment) => {
            moment.seconds();
        }
        Action::Value(_, reading) | Action::SetSetpoint(_, reading) => {
            reading.value();
        }
        Action::Shelve(_, number) | Action::SetPriority(_, number) => {
            let _number = *number;
        }
        Action::Ack(_)
        | Action::Reset(_)
        | Action::Unshelve(_)
        | Action::Oos(..)
        | Action::Design(..) => {}
    }
}

fn kind_of(action: &Action) -> u8
    ensures { result ≡ kind_of action.now }
{
    match action {
        Action::Clock(_) => 1,
        Action::Value(..) => 2,
        Action::Ack(_) => 3,
        Action::Reset(_) => 4,
        Action::Shelve(..) => 5,
        Action::Unshelve(_) => 6,
        Action::Oos(..) => 7,
        Action::Design(..) => 8,
        Action::SetPriority(..) => 9,
        Action::SetSetpoint(..) => 10,
    }
}

fn alarm_of(action: &Action) -> u32
    ensures { result ≡ alarm_of action.now }
{
    match action {
        Action::Clock(_) => 0,
        Action::Value(id, _)
        | Action::Ack(id)
        | Action::Reset(id)
        | Action::Shelve(id, _)
        | Action::Unshelve(id)
        | Action::Oos(id, _)
        | Action::Design(id, _)
        | Action::SetPriority(id, _)
        | Action::SetSetpoint(id, _) => id.0,
    }
}

fn argument_of(action: &Action) -> u64
    ensures { result ≡ argument_of action.now }
{
    match action {
        Action::Clock(moment) => moment.seconds(),
        Action::Value(_, reading) | Action::SetSetpoint(_, reading) => {
            reading.value().cast_unsigned()
        }
        Action::Shelve(_, number) | Action::SetPriority(_, number) => *number as u64,
        Action::Oos(_, on) | Action::Design(_, on) => *on as u64,
        Action::Ack(_) | Action::Reset(_) | Action::Unshelve(_) => 0,
    }
}

/// Writes the text of an action at a place, with the byte of who asked, and returns its end.
fn put_action(out: &mut [u8], at: usize, asker: u8, action: &Action) -> usize
    requires { at + 16 ≤ length out.old }
    ensures end { result ≡ at + 16 }
    ensures text { Wrote out.old out.new at result (text_by asker action.now) }
    ensures limits { IsAction action.now }
{
    know_limits(action);
    let alarm_at = put(out, at, &[kind_of(action), asker, 0, 0]);
    let argument_at = put(out, alarm_at, &alarm_of(action).to_be_bytes());
    put(out, argument_at, &argument_of(action).to_be_bytes())
}

/// Writes the text of an action at a place, with who asked as far as the version says it. Returns its end.
pub fn put_asked(out: &mut [u8], at: usize, asked: &Asked, version: Version) -> usize
    requires { at + 16 ≤ length out.old }
    ensures end { result ≡ at + 16 }
    ensures text { Wrote out.old out.new at result (asked_text version asked.now) }
    ensures limits { IsAction asked.now.action }
{
    match version {
        Version::V01 | Version::V02 => put_action(out, at, 0, &asked.action),
        Version::V03 => put_action(out, at, asked.asker.byte(), &asked.action),
    }
}

/// Writes the text of an action into the first 16 bytes.
pub fn write_action(action: &Action, out: &mut [u8])
    requires { 16 ≤ length out.old }
    ensures text { out.new ≡ action_text action.now ++ drop 16 out.old }
    ensures limits { IsAction action.now }
{
    put_action(out, 0, 0, action);
}
