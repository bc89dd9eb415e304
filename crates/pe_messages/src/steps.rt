//! How what delegating messages stand for goes on, as laws.
ghost use Rattle.pe_messages.specs.MessageSteps.{MessageSteps};

use pe_laws::history_laws;

/// For what delegating messages stand after each kind of event, and what they say of the events that name
/// them.
pub fn message_steps()
    ensures { MessageSteps }
{
    history_laws();
}
