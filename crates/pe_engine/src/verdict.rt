//! Whether a document may make a call, what state a permission has there, and under what it is kept.
ghost use Rattle.std.specs.Prelude.{◌≡◌, ◌&&◌, not, ℕ, option_map, option_and_then};
ghost use Rattle.std.specs.Option.{option_copied};
ghost use Rattle.pe_base.specs.Activation.{is_sticky, is_transient};
ghost use Rattle.pe_features.specs.Calls.{gate_of};
ghost use Rattle.pe_features.specs.Features.{key_of};
ghost use Rattle.pe_features.specs.declared.call.Call.{Call};
ghost use Rattle.pe_rules.specs.History.{RepliedHistory};
ghost use Rattle.pe_rules.specs.PermissionState.{permission_state};
ghost use Rattle.pe_rules.specs.Settings.{pair_for, stored_state};
ghost use Rattle.pe_rules.specs.Verdicts.{reason_of_state, activation_reason, reason_denied, met_by, verdict_of};
ghost use Rattle.pe_engine.specs.Deciding.{kept_key, is_held, feature_reason, IsStoredFor};
ghost use Rattle.pe_engine.specs.Rows.{IsSettled, IsRow};

use crate::row::{Delivered, Row};
use crate::verbs::policy::why_denied;
use pe_activation::{sticky, transient};
use pe_base::{Millis, State};
use pe_delegation::active;
use pe_events::{Reason, Verdict, Via};
use pe_features::{Capability, Feature, Gate, KeyKind, Need};
use pe_laws::history_laws;
use pe_store::Key;

/// Under what the feature's permission is kept for the document of this row (Permissions, "permission
/// key"); None for a feature without a permission.
pub(crate) fn key_for(row: &Row, feature: Feature) -> Option<&Key>
    ensures kept { option_copied result ≡ option_map (kept_key row.now) (key_of feature) }
    ensures pair { (T : RepliedHistory) → IsSettled T row.now → pair_for T row.now.doc feature ≡ option_map (λ k. (feature, k)) (option_copied result) }
{
    match feature.key_kind() {
        Some(KeyKind::Single) => Some(&row.single),
        Some(KeyKind::Pair) => Some(&row.pair),
        None => None,
    }
}

/// The state of the feature's permission for the document of this row, where this is stored for its
/// pair (Permissions, "get the current permission state").
pub(crate) fn permission_state(row: &Row, feature: Feature, stored: Option<State>) -> State
    ensures { (T : RepliedHistory) (now : ℕ) → IsSettled T row.now → stored ≡ option_and_then (stored_state T now) (pair_for T row.now.doc feature)
        → result ≡ permission_state T now row.now.doc feature }
{
    history_laws();
    if row.is_blocked(feature) {
        return State::Denied;
    }
    stored.unwrap_or(State::Prompt)
}

/// Why a permission of this state is no leave.
fn reason_of_state(state: State) -> Option<Reason>
    ensures { result ≡ reason_of_state state }
{
    match state {
        State::Granted => None,
        State::Denied => Some(Reason::PermissionDenied),
        State::Prompt => Some(Reason::PermissionPrompt),
    }
}

/// Why the feature of a call is none that the document of this row may use: the policy denies it, or
/// its permission, where the call wants it, is not granted.
fn feature_reason(gate: Gate, row: &Row, stored: Option<State>) -> Option<Reason>
    ensures { (T : RepliedHistory) (now : ℕ) → IsSettled T row.now → IsStoredFor T now row.now.doc gate stored → result ≡ feature_reason T now row.now.doc gate }
{
    let Some(feature) = gate.feature else {
        return None;
    };
    if let Some(denial) = why_denied(&row.policy, feature) {
        return Some(Reason::Policy(denial));
    }
    if !gate.permission {
        return None;
    }
    reason_of_state(permission_state(row, feature, stored))
}

/// Whether the capability of a call, where it has one, was delivered and counts still.
fn is_held(
    delivered: &Delivered,
    capability: Option<Capability>,
    now: Millis,
    duration: u32,
) -> bool
    ensures { result ≡ is_held duration now delivered.now capability }
{
    let Some(capability) = capability else {
        return false;
    };
    match delivered.time(capability) {
        Some(time) => active(time, now, duration),
        None => false,
    }
}

/// Why a call has not the user activation that it needs, in the document of this row.
fn activation_reason(gate: Gate, row: &Row, now: Millis, duration: u32) -> Option<Reason>
    ensures { result ≡ activation_reason gate.need (is_sticky row.now.stamp) (is_transient duration now row.now.stamp) (is_held duration now row.now.delivered gate.capability) }
{
    match gate.need {
        Need::Nothing => None,
        Need::Sticky => {
            if sticky(row.stamp) {
                return None;
            }
            Some(Reason::NoSticky)
        }
        Need::Transient => {
            if transient(row.stamp, now, duration) {
                return None;
            }
            if is_held(&row.delivered, gate.capability, now, duration) {
                return None;
            }
            Some(Reason::NoTransient)
        }
    }
}

/// Whether a call wants a secure context, and the document of this row is in none.
fn is_insecure(gate: Gate, row: &Row) -> bool
    ensures { result ≡ (gate.secure && not row.now.secure) }
{
    gate.secure && !row.secure
}

/// The first rule of a call that fails in the document of this row, if one does.
fn reason_denied(
    gate: Gate,
    row: &Row,
    stored: Option<State>,
    now: Millis,
    duration: u32,
) -> Option<Reason>
    ensures { (T : RepliedHistory) (f : ℕ) → IsRow T f row.now → IsStoredFor T now row.now.doc gate stored → result ≡ reason_denied duration T now row.now.doc gate }
{
    history_laws();
    if is_insecure(gate, row) {
        return Some(Reason::Insecure);
    }
    if let Some(reason) = feature_reason(gate, row, stored) {
        return Some(reason);
    }
    activation_reason(gate, row, now, duration)
}

/// What an allowed use was met by: transient activation is tried before a capability.
fn met_by(need: Need, transient: bool) -> Via
    ensures { result ≡ met_by need transient }
{
    match need {
        Need::Transient => {
            if transient {
                return Via::Transient;
            }
            Via::Delegated
        }
        Need::Nothing | Need::Sticky => Via::Free,
    }
}

/// The verdict of a call of this gate in the document of this row, where this is stored for the call's
/// feature: denied by the first rule that fails, else allowed. What a use consumes or spends is by what
/// it was met by: transient activation is consumed where the call does so, and a capability is spent.
pub(crate) fn verdict(
    gate: Gate,
    row: &Row,
    stored: Option<State>,
    now: Millis,
    duration: u32,
) -> Verdict
    ensures { (T : RepliedHistory) (f : ℕ) (call : Call) → gate ≡ gate_of call → IsRow T f row.now → IsStoredFor T now row.now.doc gate stored
        → result ≡ verdict_of duration T now row.now.doc call }
{
    history_laws();
    match reason_denied(gate, row, stored, now, duration) {
        Some(reason) => Verdict::Denied(reason),
        None => Verdict::Allowed(met_by(gate.need, transient(row.stamp, now, duration))),
    }
}
