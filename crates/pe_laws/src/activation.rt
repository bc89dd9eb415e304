//! Laws of user activation and history-action activation: the two stamps of a document, step by step.
ghost use Rattle.pe_laws.specs.ActivationLaws.{ActivationLaws};
ghost use Rattle.pe_laws.specs.HistoryActivationLaws.{HistoryActivationLaws};

/// What holds of user activation, and of the stamp of a document.
pub fn activation_laws()
    ensures { ActivationLaws }
{}

/// What holds of history-action activation, and of the second stamp of a document.
pub fn history_activation_laws()
    ensures { HistoryActivationLaws }
{}
