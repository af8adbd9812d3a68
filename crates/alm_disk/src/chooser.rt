//! What names the bytes that a crash leaves.

ghost use Rattle.std.specs.Prelude.{ℕ};

/// Names the byte that a crash leaves at a pending place.
pub trait Chooser {
    /// For this place, if it reads as this byte, it may name this one.
    ghost names: { Self → ℕ → ℕ → ℕ → Type 0 };

    /// The byte for place `at`, which reads as `read`.
    fn choose(&mut self, at: u64, read: u8) -> u8
        ensures named { names self.old at read result }
        ensures kept { (place before byte : ℕ) →
            names self.new place before byte → names self.old place before byte };
}
