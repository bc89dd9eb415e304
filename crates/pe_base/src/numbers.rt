//! Numbers of objects. An object has the position, in the history, of the event that made it.
ghost use Rattle.std.specs.Prelude.{◌≡◌, ◌≤◌};

use crate::limits::EVENT_LIMIT;
use std::marker::Model;

/// The number of a frame: the position, from 1, of the event that made it.
#[derive(Clone, Copy, Debug, PartialEq, Eq, PartialOrd, Ord, Hash)]
pub struct FrameNo {
    position: u32,
}

impl Model for FrameNo {
    ghost use Rattle.std.specs.Prelude.{ℕ, ◌≤◌};
    ghost use Rattle.pe_base.specs.declared.limits.TheConstants.{EVENT_LIMIT};

    ghost Value = { ℕ };

    ghost view = { λ n. n.position };

    ghost invariant = { λ n. (1 ≤ n.position) × (n.position ≤ EVENT_LIMIT) };

    ghost inverse = { λ n. record { position = n } };
}

impl FrameNo {
    /// The frame that the event at this position made.
    pub fn of(position: u32) -> FrameNo
        requires low { 1 ≤ position }
        requires high { position ≤ EVENT_LIMIT }
        ensures { result ≡ position }
    {
        FrameNo { position }
    }

    /// The position.
    pub fn get(self) -> u32
        ensures value { result ≡ self }
        ensures low { 1 ≤ result }
        ensures high { result ≤ EVENT_LIMIT }
    {
        self.position
    }
}

/// The number of a document: the position, from 1, of the event that made it.
#[derive(Clone, Copy, Debug, PartialEq, Eq, PartialOrd, Ord, Hash)]
pub struct DocNo {
    position: u32,
}

impl Model for DocNo {
    ghost use Rattle.std.specs.Prelude.{ℕ, ◌≤◌};
    ghost use Rattle.pe_base.specs.declared.limits.TheConstants.{EVENT_LIMIT};

    ghost Value = { ℕ };

    ghost view = { λ n. n.position };

    ghost invariant = { λ n. (1 ≤ n.position) × (n.position ≤ EVENT_LIMIT) };

    ghost inverse = { λ n. record { position = n } };
}

impl DocNo {
    /// The document that the event at this position made.
    pub fn of(position: u32) -> DocNo
        requires low { 1 ≤ position }
        requires high { position ≤ EVENT_LIMIT }
        ensures { result ≡ position }
    {
        DocNo { position }
    }

    /// The position.
    pub fn get(self) -> u32
        ensures value { result ≡ self }
        ensures low { 1 ≤ result }
        ensures high { result ≤ EVENT_LIMIT }
    {
        self.position
    }
}

/// The number of a permission status: the position, from 1, of the event that made it.
#[derive(Clone, Copy, Debug, PartialEq, Eq, PartialOrd, Ord, Hash)]
pub struct StatusNo {
    position: u32,
}

impl Model for StatusNo {
    ghost use Rattle.std.specs.Prelude.{ℕ, ◌≤◌};
    ghost use Rattle.pe_base.specs.declared.limits.TheConstants.{EVENT_LIMIT};

    ghost Value = { ℕ };

    ghost view = { λ n. n.position };

    ghost invariant = { λ n. (1 ≤ n.position) × (n.position ≤ EVENT_LIMIT) };

    ghost inverse = { λ n. record { position = n } };
}

impl StatusNo {
    /// The permission status that the event at this position made.
    pub fn of(position: u32) -> StatusNo
        requires low { 1 ≤ position }
        requires high { position ≤ EVENT_LIMIT }
        ensures { result ≡ position }
    {
        StatusNo { position }
    }

    /// The position.
    pub fn get(self) -> u32
        ensures value { result ≡ self }
        ensures low { 1 ≤ result }
        ensures high { result ≤ EVENT_LIMIT }
    {
        self.position
    }
}

/// The number of a prompt: the position, from 1, of the event that made it.
#[derive(Clone, Copy, Debug, PartialEq, Eq, PartialOrd, Ord, Hash)]
pub struct PromptNo {
    position: u32,
}

impl Model for PromptNo {
    ghost use Rattle.std.specs.Prelude.{ℕ, ◌≤◌};
    ghost use Rattle.pe_base.specs.declared.limits.TheConstants.{EVENT_LIMIT};

    ghost Value = { ℕ };

    ghost view = { λ n. n.position };

    ghost invariant = { λ n. (1 ≤ n.position) × (n.position ≤ EVENT_LIMIT) };

    ghost inverse = { λ n. record { position = n } };
}

impl PromptNo {
    /// The prompt that the event at this position made.
    pub fn of(position: u32) -> PromptNo
        requires low { 1 ≤ position }
        requires high { position ≤ EVENT_LIMIT }
        ensures { result ≡ position }
    {
        PromptNo { position }
    }

    /// The position.
    pub fn get(self) -> u32
        ensures value { result ≡ self }
        ensures low { 1 ≤ result }
        ensures high { result ≤ EVENT_LIMIT }
    {
        self.position
    }
}

/// The number of a delegating message: the position, from 1, of the event that made it.
#[derive(Clone, Copy, Debug, PartialEq, Eq, PartialOrd, Ord, Hash)]
pub struct MessageNo {
    position: u32,
}

impl Model for MessageNo {
    ghost use Rattle.std.specs.Prelude.{ℕ, ◌≤◌};
    ghost use Rattle.pe_base.specs.declared.limits.TheConstants.{EVENT_LIMIT};

    ghost Value = { ℕ };

    ghost view = { λ n. n.position };

    ghost invariant = { λ n. (1 ≤ n.position) × (n.position ≤ EVENT_LIMIT) };

    ghost inverse = { λ n. record { position = n } };
}

impl MessageNo {
    /// The message that the event at this position made.
    pub fn of(position: u32) -> MessageNo
        requires low { 1 ≤ position }
        requires high { position ≤ EVENT_LIMIT }
        ensures { result ≡ position }
    {
        MessageNo { position }
    }

    /// The position.
    pub fn get(self) -> u32
        ensures value { result ≡ self }
        ensures low { 1 ≤ result }
        ensures high { result ≤ EVENT_LIMIT }
    {
        self.position
    }
}
