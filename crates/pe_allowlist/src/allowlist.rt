//! Allowlists.
ghost use Rattle.std.specs.Prelude.{◌≡◌, ◌++◌, ◌∷◌, [], OnOk, OnErr};
ghost use Rattle.pe_allowlist.specs.Allowlists.{empty_list};

use pe_origin::{Origin, Tuple};
use std::alloc::{AllocError, Global};
use std::marker::Model;

/// An expression of an allowlist, as `https://pay.example` or `https://*.pay.example`.
#[derive(Debug, Drop, PartialEq, Eq)]
pub struct Expression {
    /// The host stands for the hosts below it, and not for itself.
    pub wild: bool,
    /// The tuple origin that is matched, or whose host the matched ones stand below.
    pub tuple: Tuple,
}

/// Expressions, seen by contracts as their list.
#[derive(Debug, Drop)]
pub struct Expressions {
    items: Vec<Expression>,
}

impl Model for Expressions {
    ghost use Rattle.std.specs.Prelude.{List};
    ghost use Rattle.pe_allowlist.specs.declared.allowlist.Expression.{Expression};

    ghost Value = { List Expression };

    ghost view = { λ e. e.items.items };
}

impl Expressions {
    /// Owns the given expressions.
    pub fn of(items: Vec<Expression>) -> Expressions
        ensures { result ≡ items.items }
    {
        Expressions { items }
    }

    /// Puts an expression behind the others. `AllocError` where memory wants; the list is then as before.
    pub fn push(&mut self, expression: Expression) -> Result<(), AllocError>
        ensures put { OnOk result (self.new ≡ self.old ++ expression ∷ []) }
        ensures wanting { OnErr result (self.new ≡ self.old) }
    {
        self.items.push(expression)?;
        Ok(())
    }

    /// Gives back the memory beyond what the expressions take.
    pub(crate) fn shrink(&mut self)
        ensures { self.new ≡ self.old }
    {
        self.items.shrink_to_fit();
    }

    /// The expressions.
    pub fn as_slice(&self) -> &[Expression]
        ensures { result.now ≡ self.now }
    {
        self.items.as_slice()
    }
}

/// Which origins may use a feature (Permissions Policy, "allowlist").
#[derive(Debug, Drop)]
pub struct Allowlist {
    /// `*` stands in it: every origin is matched.
    pub any: bool,
    /// The origin that `'self'` or `self` stands for.
    pub selves: Option<Origin>,
    /// The origin that `'src'` stands for.
    pub src: Option<Origin>,
    /// `'src'` stands for an opaque origin: every opaque origin is matched.
    pub src_opaque: bool,
    /// The expressions that stand in it.
    pub expressions: Expressions,
}

impl Allowlist {
    /// The list that matches nothing. It takes no memory.
    pub fn empty(alloc: Global) -> Allowlist
        ensures { result ≡ empty_list }
    {
        Allowlist {
            any: false,
            selves: None,
            src: None,
            src_opaque: false,
            expressions: Expressions::of(Vec::new(alloc)),
        }
    }
}
