//! Laws of permission statuses and of delegating messages.
ghost use Rattle.pe_laws.specs.DelegationLaws.{DelegationLaws};
ghost use Rattle.pe_laws.specs.StatusesLaws.{StatusesLaws};

/// What holds of permission statuses, and of those that are live.
pub fn statuses_laws()
    ensures { StatusesLaws }
{}

/// What holds of delegating messages, and of the capabilities that documents hold by them.
pub fn delegation_laws()
    ensures { DelegationLaws }
{}
