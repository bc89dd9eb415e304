//! Why an event is not accepted.
ghost use Rattle.std.specs.Prelude.{◌≡◌};
ghost use Rattle.pe_engine.specs.declared.refusal.Refusal.TheVariants.{For, Memory};

use pe_events::Cause;
use std::alloc::AllocError;

/// Why an event is not accepted.
#[derive(Clone, Copy, Debug, PartialEq, Eq)]
pub(crate) enum Refusal {
    /// It is refused for this cause.
    For(Cause),
    /// Memory wants.
    Memory,
}

impl From<Cause> for Refusal {
    ghost from_gives = { λ cause r. r ≡ For cause };

    fn from(cause: Cause) -> Refusal {
        Refusal::For(cause)
    }
}

impl From<AllocError> for Refusal {
    ghost from_gives = { λ _ r. r ≡ Memory };

    fn from(_error: AllocError) -> Refusal {
        Refusal::Memory
    }
}
