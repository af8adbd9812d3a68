//! Bytes and numbers at places; zeros after the end.

/// The bytes from a place on.
pub fn tail(bytes: &[u8], at: usize) -> &[u8] {
    bytes.get(at..).unwrap_or(&[])
}

/// `len` bytes from a place on.
pub fn part(bytes: &[u8], at: usize, len: usize) -> &[u8] {
    let rest = tail(bytes, at);
    rest.get(..len).unwrap_or(rest)
}

pub fn byte(bytes: &[u8], at: usize) -> u8 {
    match bytes.get(at) {
        Some(byte) => *byte,
        None => 0,
    }
}

/// A big-endian number.
pub fn number(bytes: &[u8], at: usize, len: usize) -> u64 {
    let mut number = 0u64;
    for byte in part(bytes, at, len) {
        number = (number << 8) | *byte as u64;
    }
    number
}

/// The register of CRC-32C after these bytes more, bit by bit.
pub fn register_after(register: u32, bytes: &[u8]) -> u32 {
    let mut register = register;
    for byte in bytes {
        register ^= *byte as u32;
        for _ in 0..8 {
            let is_odd = register % 2 == 1;
            register >>= 1;
            if is_odd {
                register ^= 0x82F6_3B78;
            }
        }
    }
    register
}

/// CRC-32C of two texts, one after the other.
pub fn checksum(front: &[u8], back: &[u8]) -> u64 {
    let register = register_after(register_after(0xFFFF_FFFF, front), back);
    (register ^ 0xFFFF_FFFF) as u64
}

/// Whether a number in two's complement is between -10^12 and 10^12.
pub fn is_value(number: u64) -> bool {
    number <= 1_000_000_000_000 || 0u64.wrapping_sub(number) <= 1_000_000_000_000
}

/// The place of the first rule that doesn't hold.
pub fn first_broken(rules: &[(bool, usize)]) -> Result<(), usize> {
    for (holds, at) in rules {
        if !*holds {
            return Err(*at);
        }
    }
    Ok(())
}
