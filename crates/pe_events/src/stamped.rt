//! An event with its time.
ghost use Rattle.std.specs.Prelude.{◌≤◌, IsTrue};
ghost use Rattle.pe_base.specs.declared.limits.TheConstants.{TIME_LIMIT};
ghost use Rattle.pe_events.specs.Fitting.{is_fitting};

use crate::event::Event;

/// An event with its time. Its time is in range, and its event is one that a line of a script can say.
#[derive(Drop)]
pub struct Stamped<'a> {
    /// The time, in milliseconds since the session began.
    pub time: u64,
    /// What happens.
    pub event: Event<'a>,
    ghost in_time: { time ≤ TIME_LIMIT },
    ghost fitting: { IsTrue (is_fitting event) },
}
