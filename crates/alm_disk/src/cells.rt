//! The bytes of a device in memory, and which of them are pending.

ghost use Rattle.alm_disk.specs.Cells.{is_marked};
ghost use Rattle.std.specs.Prelude.{◌≡◌, ◌≤◌, ◌<◌, ◌+◌, ◌||◌, ◌++◌, ℕ, true, false, length, take, drop};
ghost use Rattle.alm_disk.specs.Device.{AreBytes, byte_at, is_within};

use crate::chooser::Chooser;

// The places from `at` on are pending.
pub fn mark(pending: &mut Vec<bool>, at: usize, count: usize)
    requires { at + count ≤ length pending.old.items }
    ensures size { length pending.new.items ≡ length pending.old.items }
    ensures marked { (place : ℕ) →
        is_marked pending.new.items place ≡
        (is_within at count place || is_marked pending.old.items place) }
{
    mark_in(pending.as_mut_slice(), at, count);
}

fn mark_in(pending: &mut [bool], at: usize, count: usize)
    requires { at + count ≤ length pending.old }
    ensures { (place : ℕ) →
        is_marked pending.new place ≡ (is_within at count place || is_marked pending.old place) }
{
    pending[at..at + count].fill(true);
}

// Makes no place pending.
pub fn settle(pending: &mut Vec<bool>)
    ensures size { length pending.new.items ≡ length pending.old.items }
    ensures settled { (place : ℕ) → is_marked pending.new.items place ≡ false }
{
    pending.as_mut_slice().fill(false);
}

// The bytes from `at` on become these.
pub fn put(all: &mut Vec<u8>, at: usize, bytes: &[u8])
    requires { at + length bytes.now ≤ length all.old.items }
    ensures size { length all.new.items ≡ length all.old.items }
    ensures put { all.new.items ≡
        take at all.old.items ++ bytes.now ++ drop (at + length bytes.now) all.old.items }
    ensures bytes { AreBytes all.new.items }
{
    put_in(all.as_mut_slice(), at, bytes);
}

fn put_in(all: &mut [u8], at: usize, bytes: &[u8])
    requires { at + length bytes.now ≤ length all.old }
    ensures { all.new ≡ take at all.old ++ bytes.now ++ drop (at + length bytes.now) all.old }
{
    all[at..at + bytes.len()].copy_from_slice(bytes);
}

// Each pending place gets the byte that the chooser names.
pub fn tear<C: Chooser>(bytes: &mut Vec<u8>, pending: &[bool], chooser: &mut C)
    requires { length pending.now ≡ length bytes.old.items }
    ensures size { length bytes.new.items ≡ length bytes.old.items }
    ensures bytes { AreBytes bytes.new.items }
    ensures stable { (place : ℕ) → is_marked pending.now place ≡ false →
        byte_at bytes.new.items place ≡ byte_at bytes.old.items place }
    ensures named { (place : ℕ) → place < length bytes.old.items →
        is_marked pending.now place ≡ true →
        C.names chooser.old place (byte_at bytes.old.items place) (byte_at bytes.new.items place) }
{
    tear_in(bytes.as_mut_slice(), pending, chooser);
}

fn tear_in<C: Chooser>(bytes: &mut [u8], pending: &[bool], chooser: &mut C)
    requires { length pending.now ≡ length bytes.old }
    ensures stable { (place : ℕ) → is_marked pending.now place ≡ false →
        byte_at bytes.new place ≡ byte_at bytes.old place }
    ensures named { (place : ℕ) → place < length bytes.old → is_marked pending.now place ≡ true →
        C.names chooser.old place (byte_at bytes.old place) (byte_at bytes.new place) }
{
    for i in 0..pending.len() {
        if pending[i] {
            bytes[i] = chooser.choose(i as u64, bytes[i]);
        }
    }
}
