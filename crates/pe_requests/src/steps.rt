//! How what prompts stand for goes on, as laws.
ghost use Rattle.pe_requests.specs.PromptSteps.{PromptSteps};

use pe_laws::history_laws;

/// For what the prompts stand after each kind of event.
pub fn prompt_steps()
    ensures { PromptSteps }
{
    history_laws();
}
