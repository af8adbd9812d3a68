//! Laws of the desk's definitions: each function does nothing, and its contract is the law.

ghost use Rattle.std.specs.Prelude.{◌≡◌, ℕ, List, [], map, take, replicate};
ghost use Rattle.alm_desk.specs.Desks.{Tagged, lines_among};
ghost use Rattle.alm_desk.specs.Whole.{whole_lines};
ghost use Rattle.alm_types.specs.Sizes.{slot_count};

/// That no more than 128 bytes of a line are held makes no difference: the lines that bytes end are those of the whole
/// streams. So it is from a new desk on.
pub fn lines_are_whole()
    ensures held { (wholes : List (List ℕ)) (bytes : List Tagged) →
        lines_among (map (take 128) wholes) bytes ≡ whole_lines wholes bytes }
    ensures fresh { (bytes : List Tagged) →
        lines_among (replicate slot_count []) bytes ≡ whole_lines (replicate slot_count []) bytes }
{}
