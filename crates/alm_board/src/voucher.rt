//! What vouches for a list that is shown.

/// What vouches for the list that a board is to show.
pub trait Voucher {
    ghost use Rattle.std.specs.Prelude.{List};
    ghost use Rattle.alm_types.specs.declared.action.Action.{Action};

    /// These actions may be shown as published.
    ghost vouches: { Self → List Action → Type 0 };
}

/// In one thread nothing has to be known of a list.
impl Voucher for () {
    ghost vouches = { λ _ _. Unit {0} };
}
