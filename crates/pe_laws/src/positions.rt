//! Laws of the steps of a history: their positions and numbers, their causes, and their effects.
ghost use Rattle.pe_laws.specs.StepLaws.{StepLaws};
ghost use Rattle.pe_laws.specs.NumberingLaws.{NumberingLaws};
ghost use Rattle.pe_laws.specs.CausesLaws.{CausesLaws};
ghost use Rattle.pe_laws.specs.EffectsLaws.{EffectsLaws};

/// What holds of the steps of a history: their positions, the clock, and that what was told stays.
pub fn step_laws()
    ensures { StepLaws }
{}

/// What holds of the numbers of frames, documents, statuses, prompts and messages.
pub fn numbering_laws()
    ensures { NumberingLaws }
{}

/// What holds of the causes for which an event is refused.
pub fn causes_laws()
    ensures { CausesLaws }
{}

/// What a step leaves, by the table of effects.
pub fn effects_laws()
    ensures { EffectsLaws }
{}
