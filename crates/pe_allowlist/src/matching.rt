//! Which origins an allowlist matches.
ghost use Rattle.std.specs.Prelude.{◌≡◌};
ghost use Rattle.std.specs.List.{list_any};
ghost use Rattle.pe_allowlist.specs.Expressions as expression;
ghost use Rattle.pe_allowlist.specs.Allowlists as spec;

use crate::allowlist::{Allowlist, Expression};
use pe_origin::{HostForm, Origin, Tuple, same_origin};

/// Whether the host ends with a dot and the other, with at least one byte before.
#[tactic(auto, using(crate::proofs::HostLaws::host_below, crate::proofs::HostLaws::host_short))]
fn is_host_below(host: &[u8], above: &[u8]) -> bool
    ensures { result ≡ expression.is_host_below host.now above.now }
{
    if host.len() <= above.len() || host.len() - above.len() == 1 {
        return false;
    }
    let behind = host.len() - above.len();
    host[behind - 1] == b'.' && host.ends_with(above)
}

/// Whether the host of the one is a domain below that of the other, with the same scheme and port.
fn is_below(tuple: &Tuple, above: &Tuple) -> bool
    ensures { result ≡ expression.is_below tuple.now above.now }
{
    if tuple.scheme != above.scheme || tuple.port != above.port {
        return false;
    }
    match tuple.form {
        HostForm::Domain => is_host_below(tuple.host.as_slice(), above.host.as_slice()),
        HostForm::V4 | HostForm::V6 => false,
    }
}

impl Expression {
    /// Whether the expression matches the origin.
    pub(crate) fn matches(&self, origin: &Origin) -> bool
        ensures { result ≡ expression.expression_matches self.now origin.now }
    {
        match origin {
            Origin::Tuple(tuple) => {
                if self.wild {
                    is_below(tuple, &self.tuple)
                } else {
                    *tuple == self.tuple
                }
            }
            Origin::Opaque(_) => false,
        }
    }
}

fn is_opaque(origin: &Origin) -> bool
    ensures { result ≡ spec.is_opaque origin.now }
{
    match origin {
        Origin::Tuple(_) => false,
        Origin::Opaque(_) => true,
    }
}

fn is_one_same(one: &Option<Origin>, other: &Origin) -> bool
    ensures { result ≡ spec.is_one_same one.now other.now }
{
    match one {
        Some(one) => same_origin(one, other),
        None => false,
    }
}

/// Whether one of the expressions matches the origin.
pub(crate) fn is_any_matching(expressions: &[Expression], origin: &Origin) -> bool
    ensures { result ≡ list_any (λ e. expression.expression_matches e origin.now) expressions.now }
{
    expressions.iter().any(|e| e.matches(origin))
}

impl Allowlist {
    /// Whether the allowlist matches the origin (Permissions Policy, "matches").
    #[tactic(auto, unfolding(crate::specs::Allowlists::matches))]
    pub fn matches(&self, origin: &Origin) -> bool
        ensures { result ≡ spec.matches self.now origin.now }
    {
        if self.any || (self.src_opaque && is_opaque(origin)) {
            return true;
        }
        is_one_same(&self.selves, origin)
            || is_one_same(&self.src, origin)
            || is_any_matching(self.expressions.as_slice(), origin)
    }
}
