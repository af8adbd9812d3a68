//! Laws of checksums: each function does nothing, and its contract is the law.

ghost use Rattle.std.specs.Prelude.{◌≡◌, ◌<◌, ◌≤◌, ℕ, List, All, [], ◌∷◌, ◌++◌, length, codes, replicate, reverse};
ghost use Rattle.alm_sum.specs.Crc.{checksum_of};
ghost use Rattle.alm_sum.specs.Known.{rising};

/// Of two texts that differ in one byte the checksums differ.
pub fn one_change_is_seen()
    ensures { (front back : List ℕ) (a b : ℕ) → All (λ n. n < 256) front →
        All (λ n. n < 256) back → a < 256 → b < 256 →
        checksum_of (front ++ a ∷ back) ≡ checksum_of (front ++ b ∷ back) → a ≡ b }
{}

/// Of two texts of one length that differ within four neighbouring bytes alone the checksums differ.
pub fn four_changes_are_seen()
    ensures { (front old new back : List ℕ) → All (λ n. n < 256) front →
        All (λ n. n < 256) back → All (λ n. n < 256) old → All (λ n. n < 256) new →
        length old ≡ length new → length old ≤ 4 →
        checksum_of (front ++ old ++ back) ≡ checksum_of (front ++ new ++ back) → old ≡ new }
{}

/// Checksums that are known: of the digits, and of the 32 bytes each of RFC 3720, B.4.
pub fn known_checksums()
    ensures none { checksum_of [] ≡ 0 }
    ensures digits { checksum_of (codes "123456789") ≡ 0xE3069283 }
    ensures zeros { checksum_of (replicate 32 0) ≡ 0x8A9136AA }
    ensures ones { checksum_of (replicate 32 255) ≡ 0x62A8AB43 }
    ensures rising { checksum_of (rising 32) ≡ 0x46DD794E }
    ensures falling { checksum_of (reverse (rising 32)) ≡ 0x113FDB5C }
{}
