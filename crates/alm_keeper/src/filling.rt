//! Zeros in the room of a vector.

ghost use Rattle.std.specs.Prelude.{◌≡◌, ◌≤◌, ◌-◌, ◌++◌, length, replicate, vec_capacity};

/// Appends zeros to a vector, up to a length for which it has room.
pub fn fill_to(buffer: &mut Vec<u8>, len: usize)
    requires { len ≤ vec_capacity buffer.old }
    ensures items { buffer.new.items ≡
        buffer.old.items ++ replicate (len - length buffer.old.items) 0 }
    ensures long { length buffer.old.items ≤ len → length buffer.new.items ≡ len }
    ensures room { vec_capacity buffer.new ≡ vec_capacity buffer.old }
{
    let missing = len.saturating_sub(buffer.len());
    for _place in 0..missing {
        buffer.push_reserved(0);
    }
}
