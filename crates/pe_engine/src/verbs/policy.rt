//! `policy` and `features`: what the policy of a document says.
ghost use Rattle.std.specs.Prelude.{◌≡◌, ◌+◌, ◌≤◌, IfSome, IfNone, Some, true, false, map, ℕ};
ghost use Rattle.pe_allowlist.specs.Lists.{is_policy_controlled};
ghost use Rattle.pe_arena.specs.declared.handle.Handle.{Handle};
ghost use Rattle.pe_events.specs.declared.event.Event.TheVariants as event;
ghost use Rattle.pe_features.specs.Features.{feature_named, all_features};
ghost use Rattle.pe_rules.specs.Causes.{lacks_default};
ghost use Rattle.pe_rules.specs.Denials.{why_denied, is_allowed};
ghost use Rattle.pe_rules.specs.History.{History, RepliedHistory};
ghost use Rattle.pe_rules.specs.Replies.{answer_of_denial};
ghost use Rattle.pe_engine.specs.Replying.{timed, IsAnswer};
ghost use Rattle.pe_engine.specs.Rows.{HasPolicy};
ghost use Rattle.pe_engine.specs.StandsFor.{StandsFor};

use crate::engine::{Engine, Made};
use crate::laws::engine_laws;
use crate::refusal::Refusal;
use pe_base::{Denial, Millis, Steps};
use pe_events::{Answer, Cause, Reason};
use pe_features::Feature;
use pe_policy::Policy;
use std::sync::ledger::Ledger;

/// The policy-controlled feature of this name.
fn controlled(name: &[u8]) -> Option<Feature>
    ensures named { IfSome result (λ f. feature_named name.now ≡ Some f) }
    ensures some { IfSome result (λ f. lacks_default name.now ≡ false) }
    ensures none { IfNone result (lacks_default name.now ≡ true) }
{
    let feature = Feature::by_name(name)?;
    feature.default_of()?;
    Some(feature)
}

/// What `policy` is answered, by what denies the feature.
fn answer_of_denial(denial: Option<Denial>) -> Answer
    ensures { result ≡ answer_of_denial denial }
{
    match denial {
        None => Answer::Allowed,
        Some(denial) => Answer::Denied {
            reason: Reason::Policy(denial),
        },
    }
}

/// Why the feature is denied in the document of this policy.
pub(crate) fn why_denied(policy: &Policy, feature: Feature) -> Option<Denial>
    ensures { (T : RepliedHistory) (d : ℕ) → HasPolicy T d policy.now → result ≡ why_denied T feature d }
{
    policy.why(feature)
}

/// Whether the feature is policy-controlled and allowed in the document of this policy.
fn is_allowed(policy: &Policy, feature: Feature) -> bool
    ensures { (T : RepliedHistory) (d : ℕ) → HasPolicy T d policy.now → result ≡ is_allowed T d feature }
{
    if feature.default_of().is_none() {
        return false;
    }
    why_denied(policy, feature).is_none()
}

/// For each feature, in the order of the table, whether it is policy-controlled and allowed.
fn allowed(policy: &Policy) -> [bool; 16]
    ensures { (T : RepliedHistory) (d : ℕ) → HasPolicy T d policy.now → result ≡ map (is_allowed T d) all_features }
{
    [
        is_allowed(policy, Feature::Accelerometer),
        is_allowed(policy, Feature::Autoplay),
        is_allowed(policy, Feature::Camera),
        is_allowed(policy, Feature::ClipboardRead),
        is_allowed(policy, Feature::ClipboardWrite),
        is_allowed(policy, Feature::DisplayCapture),
        is_allowed(policy, Feature::Fullscreen),
        is_allowed(policy, Feature::Geolocation),
        is_allowed(policy, Feature::Gyroscope),
        is_allowed(policy, Feature::Microphone),
        is_allowed(policy, Feature::Midi),
        is_allowed(policy, Feature::Notifications),
        is_allowed(policy, Feature::Payment),
        is_allowed(policy, Feature::PictureInPicture),
        is_allowed(policy, Feature::Push),
        is_allowed(policy, Feature::StorageAccess),
    ]
}

impl Engine {
    /// Whether the document of the frame of this number may use the feature of this name (HTML Standard,
    /// "allowed to use"), and which test of Permissions Policy denies it.
    pub(crate) fn policy<L: Ledger>(
        &mut self,
        now: Millis,
        frame: u32,
        name: &[u8],
        steps: &mut Steps<L>,
    ) -> Result<Answer, Refusal>
        ensures answered { (H : History) → StandsFor self.old H → IsAnswer self.old self.new H (timed now (event.PolicyOf frame name.now)) result }
        ensures cost { steps.new ≤ steps.old + 1 }
    {
        engine_laws();
        let (_, h) = self.next_in(now, frame)?;
        let Some(feature) = controlled(name) else {
            return Err(Refusal::For(Cause::Feature));
        };
        let answer = answer_of_denial(why_denied(&self.row(h, steps).policy, feature));
        self.note(now, Made::Nothing)?;
        Ok(answer)
    }

    /// Which features the document of the frame of this number may use (Permissions Policy, "the policy
    /// object", `allowedFeatures()`).
    pub(crate) fn features<L: Ledger>(
        &mut self,
        now: Millis,
        frame: u32,
        steps: &mut Steps<L>,
    ) -> Result<Answer, Refusal>
        ensures { (H : History) → StandsFor self.old H → IsAnswer self.old self.new H (timed now (event.Features frame)) result }
    {
        engine_laws();
        let (_, h) = self.next_in(now, frame)?;
        let allowed = allowed(&self.row(h, steps).policy);
        self.note(now, Made::Nothing)?;
        Ok(Answer::Names { allowed })
    }
}
