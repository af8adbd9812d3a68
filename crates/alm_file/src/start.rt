//! What a file held.

ghost use Rattle.std.specs.Prelude.{ℕ, List};

/// What a file held as it was opened. No code can read it, so what is proved for any `Start` is proved for any bytes.
pub trait Start: Drop {
    /// Its bytes.
    ghost bytes: { List ℕ };
}

/// What the program passes: it knows nothing of its file's bytes.
#[derive(Drop)]
pub struct Unknown;

impl Start for Unknown {
    ghost use Rattle.std.specs.Prelude.{[]};

    ghost bytes = { [] };
}
