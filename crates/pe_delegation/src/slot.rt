//! What is kept of a message that was posted.
ghost use Rattle.std.specs.Prelude.{◌≡◌, IfOk, Some, None, option_copied};

use crate::message::Message;
use std::alloc::{AllocError, Global};
use std::marker::Model;

/// A message while it waits, and an empty place once it is settled.
#[derive(Drop)]
pub(crate) struct Slot {
    message: Option<Box<Message>>,
}

impl Model for Slot {
    ghost use Rattle.std.specs.Prelude.{Option, option_map};
    ghost use Rattle.std.specs.Box.{box_value};
    ghost use Rattle.pe_delegation.specs.declared.message.Message.{Message};

    ghost Value = { Option Message };

    ghost view = { λ s. option_map box_value s.message };
}

impl Slot {
    /// The message waits. `AllocError` where memory wants.
    pub fn of(alloc: Global, message: Message) -> Result<Slot, AllocError>
        ensures { IfOk result (λ slot. slot ≡ Some message) }
    {
        Ok(Slot {
            message: Some(Box::new(alloc, message)?),
        })
    }

    /// The message, if it waits.
    pub fn get(&self) -> Option<&Message>
        ensures { option_copied result ≡ self.now }
    {
        match &self.message {
            Some(message) => Some(message),
            None => None,
        }
    }

    /// The message waits no longer.
    pub fn settle(&mut self)
        ensures { self.new ≡ None }
    {
        self.message = None;
    }
}
