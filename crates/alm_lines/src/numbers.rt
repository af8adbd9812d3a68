//! Numbers in digits.

ghost use Rattle.std.specs.Prelude.{◌≡◌, ◌<◌, ◌≤◌, ◌^◌, length};
ghost use Rattle.alm_lines.specs.Line.{value, up_to, number, word, alarm, moment_in, count_in, stamp_number, reading_from, switch};

use alm_types::{AlarmId, MOST_ACTIONS, Moment, Reading};

/// The value of digits, below a limit.
#[tactic(auto, using(crate::proofs::Digits::too_large, crate::proofs::Digits::one_more))]
fn value(digits: &[u8], limit: u64) -> Option<u64>
    requires some { 0 < length digits.now }
    requires limit { limit ≤ 2 ^ 63 }
    ensures { result ≡ up_to limit (value 0 digits.now) }
{
    let mut value: u64 = 0;
    for digit in digits {
        if !digit.is_ascii_digit() {
            return None;
        }
        value = value
            .saturating_mul(10)
            .saturating_add(u64::from(*digit - b'0'));
        if value >= limit {
            return None;
        }
    }
    Some(value)
}

/// A number below a limit, without leading zeros.
pub fn number(digits: &[u8], limit: u64) -> Option<u64>
    requires { limit ≤ 2 ^ 63 }
    ensures { result ≡ number limit digits.now }
{
    match digits {
        [] => None,
        [b'0', _, ..] => None,
        _ => value(digits, limit),
    }
}

/// A number of 32 bits.
pub fn word(digits: &[u8]) -> Option<u32>
    ensures { result ≡ word digits.now }
{
    match number(digits, 1 << 32) {
        Some(n) => Some(n as u32),
        None => None,
    }
}

/// An alarm's number.
pub fn alarm(digits: &[u8]) -> Option<AlarmId>
    ensures { result ≡ alarm digits.now }
{
    match word(digits) {
        Some(n) => Some(AlarmId(n)),
        None => None,
    }
}

pub fn moment(digits: &[u8]) -> Option<Moment>
    ensures { result ≡ moment_in digits.now }
{
    match number(digits, 1 << 40) {
        Some(seconds) => Moment::new(seconds),
        None => None,
    }
}

/// How many actions a plant has had.
pub fn count(digits: &[u8]) -> Option<u64>
    ensures { result ≡ count_in digits.now }
{
    number(digits, MOST_ACTIONS + 1)
}

/// The stamp of an annunciation.
pub fn stamp(digits: &[u8]) -> Option<u64>
    ensures { result ≡ stamp_number digits.now }
{
    number(digits, 1 << 63)
}

/// A value of the process, with or without minus.
pub fn reading(digits: &[u8]) -> Option<Reading>
    ensures { result ≡ reading_from digits.now }
{
    match digits {
        [b'-', digits @ ..] => match number(digits, 1_000_000_000_001) {
            Some(0) => None,
            Some(n) => Reading::new(-(n as i64)),
            None => None,
        },
        _ => match number(digits, 1_000_000_000_001) {
            Some(n) => Reading::new(n as i64),
            None => None,
        },
    }
}

/// On or off.
pub fn switch(field: &[u8]) -> Option<bool>
    ensures { result ≡ switch field.now }
{
    if field == b"ON".as_slice() {
        return Some(true);
    }
    if field == b"OFF".as_slice() {
        return Some(false);
    }
    None
}
