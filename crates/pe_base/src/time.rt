//! Times.
ghost use Rattle.std.specs.Prelude.{◌≡◌, ◌≤◌};

use crate::limits::TIME_LIMIT;
use std::marker::Model;

/// A time in milliseconds since the session began, at most `TIME_LIMIT`.
#[derive(Clone, Copy, Debug, PartialEq, Eq, PartialOrd, Ord, Hash)]
pub struct Millis {
    millis: u64,
}

impl Model for Millis {
    ghost use Rattle.std.specs.Prelude.{ℕ, ◌≤◌};
    ghost use Rattle.pe_base.specs.declared.limits.TheConstants.{TIME_LIMIT};

    ghost Value = { ℕ };

    ghost view = { λ t. t.millis };

    ghost invariant = { λ t. t.millis ≤ TIME_LIMIT };

    ghost inverse = { λ n. record { millis = n } };
}

impl Millis {
    /// The time so many milliseconds after the session began.
    pub fn of(millis: u64) -> Millis
        requires { millis ≤ TIME_LIMIT }
        ensures { result ≡ millis }
    {
        Millis { millis }
    }

    /// The milliseconds.
    pub fn get(self) -> u64
        ensures value { result ≡ self }
        ensures high { result ≤ TIME_LIMIT }
    {
        self.millis
    }
}
