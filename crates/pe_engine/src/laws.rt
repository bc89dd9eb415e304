//! What the engine's proofs rest on.
ghost use Rattle.pe_engine.specs.Laws.{EngineLaws};

use pe_changes::{status_steps, store_steps};
use pe_laws::history_laws;
use pe_messages::message_steps;
use pe_requests::prompt_steps;

/// The laws of histories, and of a store, statuses, prompts and messages that stand for them.
pub(crate) fn engine_laws()
    ensures { EngineLaws }
{
    history_laws();
    store_steps();
    status_steps();
    prompt_steps();
    message_steps();
}
