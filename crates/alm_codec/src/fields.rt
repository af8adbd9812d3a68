//! Numbers as bytes, the highest first.

ghost use Rattle.std.specs.Prelude.{◌≡◌, ◌+◌, ◌-◌, ◌≤◌, length, replicate, IfOk};
ghost use Rattle.std.specs.Int.{w16, w32, w64, from_be_bytes, to_be_bytes};
ghost use Rattle.alm_codec.specs.Reading.{Gives, next_byte, number_at};
ghost use Rattle.alm_codec.specs.Writing.{Wrote};

use crate::bytes_left::BytesLeft;

pub fn u8_at(bytes: &[u8]) -> Result<(u8, &[u8]), BytesLeft>
    ensures value { Gives (λ x. (x.0, x.1.now)) result (next_byte bytes.now) }
    ensures left { IfOk result (λ x. length x.1.now + 1 ≡ length bytes.now) }
{
    match bytes {
        [] => Err(BytesLeft(0)),
        [byte, rest @ ..] => Ok((*byte, rest)),
    }
}

pub fn u16_at(bytes: &[u8]) -> Result<(u16, &[u8]), BytesLeft>
    ensures value { Gives (λ x. (x.0, x.1.now)) result (number_at w16 bytes.now) }
    ensures left { IfOk result (λ x. length x.1.now + 2 ≡ length bytes.now) }
{
    if bytes.len() < 2 {
        return Err(BytesLeft(bytes.len()));
    }
    let (front, rest) = bytes.split_at(2);
    let number = u16::from_be_bytes([front[0], front[1]]);
    Ok((number, rest))
}

pub fn u32_at(bytes: &[u8]) -> Result<(u32, &[u8]), BytesLeft>
    ensures value { Gives (λ x. (x.0, x.1.now)) result (number_at w32 bytes.now) }
    ensures left { IfOk result (λ x. length x.1.now + 4 ≡ length bytes.now) }
{
    if bytes.len() < 4 {
        return Err(BytesLeft(bytes.len()));
    }
    let (front, rest) = bytes.split_at(4);
    let number = u32::from_be_bytes([front[0], front[1], front[2], front[3]]);
    Ok((number, rest))
}

pub fn u64_at(bytes: &[u8]) -> Result<(u64, &[u8]), BytesLeft>
    ensures value { Gives (λ x. (x.0, x.1.now)) result (number_at w64 bytes.now) }
    ensures left { IfOk result (λ x. length x.1.now + 8 ≡ length bytes.now) }
{
    if bytes.len() < 8 {
        return Err(BytesLeft(bytes.len()));
    }
    let (front, rest) = bytes.split_at(8);
    let number = u64::from_be_bytes([
        front[0], front[1], front[2], front[3], front[4], front[5], front[6], front[7],
    ]);
    Ok((number, rest))
}

/// Writes bytes at a place, and returns their end.
pub fn put(out: &mut [u8], at: usize, bytes: &[u8]) -> usize
    requires { at + length bytes.now ≤ length out.old }
    ensures end { result ≡ at + length bytes.now }
    ensures text { Wrote out.old out.new at result bytes.now }
{
    let end = at + bytes.len();
    out[at..end].copy_from_slice(bytes);
    end
}

/// Writes a number of 64 bits at a place, and returns its end.
pub fn put_word(out: &mut [u8], at: usize, word: u64) -> usize
    requires { at + 8 ≤ length out.old }
    ensures end { result ≡ at + 8 }
    ensures text { Wrote out.old out.new at result (to_be_bytes w64 word) }
{
    put(out, at, &word.to_be_bytes())
}

/// Writes zeros up to a place.
pub fn put_zeros(out: &mut [u8], at: usize, end: usize)
    requires order { at ≤ end }
    requires room { end ≤ length out.old }
    ensures text { Wrote out.old out.new at end (replicate (end - at) 0) }
{
    out[at..end].fill(0);
}
