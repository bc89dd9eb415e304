//! The end of an embargo.
ghost use Rattle.std.specs.Prelude.{◌≡◌, ◌∷◌, ◌++◌, List, [], codes};
ghost use Rattle.pe_output.specs.OutputText.{event_text};
ghost use Rattle.pe_long_rows.specs.AfterEmbargo.{ticked, asking_again};

/// After three dismissals, the third at 3, and a tick shortly before the embargo ends, a request at its end
/// finds it over: the status changes to prompt, and the request makes a prompt.
pub fn embargo_ends()
    ensures { event_text 5000 10 ticked asking_again ≡ codes "@604800003 s2 prompt" ++ 10 ∷ (codes "10 prompt p10" ++ 10 ∷ []) }
{}
