//! Kinds of alarm.

ghost use Rattle.std.specs.Prelude.{◌≡◌};

/// How an alarm's condition follows from a value.
#[derive(Clone, Copy, Debug, PartialEq, Eq)]
pub enum Kind {
    /// At its setpoint and above.
    High,
    /// At its setpoint and below.
    Low,
    /// At its setpoint alone.
    Discrete,
}

impl Kind {
    ghost use Rattle.alm_types.specs.Attributes.{deadband_limit};

    /// The greatest deadband: none for a discrete alarm.
    pub fn deadband_limit(self) -> u64
        ensures { result ≡ deadband_limit self }
    {
        match self {
            Kind::High | Kind::Low => 1_000_000_000_000,
            Kind::Discrete => 0,
        }
    }
}
