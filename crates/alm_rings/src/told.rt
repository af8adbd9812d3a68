//! What receipts report.

/// What a receipt reports of the list of published actions: only contracts see it.
pub trait Told {
    ghost use Rattle.std.specs.Prelude.{ℕ, List};
    ghost use Rattle.alm_types.specs.declared.action.Action.{Action};
    ghost use Rattle.alm_types.specs.declared.logged_action.LoggedAction.{LoggedAction};

    /// How many actions the plant had when the server was opened.
    ghost base_count: { Self → ℕ };

    /// The actions that were published since, oldest first.
    ghost list: { Self → List Action };

    /// The same, each with its request.
    ghost logged: { Self → List LoggedAction };
}
