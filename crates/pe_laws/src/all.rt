//! All laws of the definitions over the history, for the crates above.
ghost use Rattle.pe_laws.specs.HistoryLaws.{HistoryLaws};

use crate::activation::{activation_laws, history_activation_laws};
use crate::documents::{
    attributes_laws, current_laws, denials_laws, embedders_laws, making_laws, origins_laws,
    tree_laws,
};
use crate::objects::{delegation_laws, statuses_laws};
use crate::permissions::{
    changes_laws, entries_laws, permission_state_laws, prompts_laws, settings_laws,
};
use crate::positions::{causes_laws, effects_laws, numbering_laws, step_laws};

/// All laws of the definitions over the history. A crate that needs one calls this, and its proofs take
/// the record of laws as their premise.
pub fn history_laws()
    ensures { HistoryLaws }
{
    step_laws();
    numbering_laws();
    attributes_laws();
    making_laws();
    embedders_laws();
    current_laws();
    tree_laws();
    origins_laws();
    denials_laws();
    activation_laws();
    history_activation_laws();
    settings_laws();
    entries_laws();
    permission_state_laws();
    changes_laws();
    prompts_laws();
    causes_laws();
    statuses_laws();
    delegation_laws();
    effects_laws();
}
