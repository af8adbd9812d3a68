//! What the next publish shows.

/// A companion of a published list, which knows what the next publish shows.
pub trait NextShown {
    ghost use Rattle.std.specs.Prelude.{List};
    ghost use Rattle.alm_types.specs.declared.logged_action.LoggedAction.{LoggedAction};

    /// The list that the next publish shows.
    ghost next_shown: { Self → List LoggedAction };
}
