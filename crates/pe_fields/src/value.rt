//! The values of a dictionary (RFC 8941, section 3).
ghost use Rattle.std.specs.Prelude.{◌≡◌};

use crate::lent::{Lent, Text};
use std::marker::Model;

/// A bare item (RFC 8941, section 3.3).
#[derive(Debug, Drop)]
pub enum Bare<'a> {
    /// An integer of at most 15 digits (section 3.3.1).
    Integer(i64),
    /// A decimal, in thousandths (section 3.3.2).
    Decimal(i64),
    /// The bytes of a string, with escapes undone (section 3.3.3).
    Text(Text<'a>),
    /// A token (section 3.3.4).
    Token(Lent<'a>),
    /// A byte sequence, as the base64 text between its colons, not decoded (section 3.3.5).
    Binary(Lent<'a>),
    /// A truth value (section 3.3.6).
    Truth(bool),
}

/// A parameter (RFC 8941, section 3.1.2). One without a value is true.
#[derive(Debug, Drop)]
pub struct Param<'a> {
    /// The key.
    pub key: Lent<'a>,
    /// The value.
    pub value: Bare<'a>,
}

/// Parameters in their order, with repeats. Of a repeated key the last one is the value.
#[derive(Debug, Drop)]
pub struct Params<'a> {
    items: Vec<Param<'a>>,
}

impl<'a> Model for Params<'a> {
    ghost use Rattle.std.specs.Prelude.{List};
    ghost use Rattle.pe_fields.specs.declared.value.Param.{Param};

    ghost Value = { List Param };

    ghost view = { λ p. p.items.items };
}

impl<'a> Params<'a> {
    /// Owns the parameters.
    pub fn of(items: Vec<Param<'a>>) -> Params<'a>
        ensures { result ≡ items.entry.items }
    {
        Params { items }
    }

    /// The parameters.
    pub fn as_slice(&self) -> &[Param<'a>]
        ensures { result.now ≡ self.now }
    {
        self.items.as_slice()
    }
}

/// An item of an inner list: a bare item with its parameters (RFC 8941, section 3.3).
#[derive(Debug, Drop)]
pub struct Item<'a> {
    /// The bare item.
    pub bare: Bare<'a>,
    /// Its parameters.
    pub params: Params<'a>,
}

/// The items of an inner list in their order (RFC 8941, section 3.1.1).
#[derive(Debug, Drop)]
pub struct Items<'a> {
    items: Vec<Item<'a>>,
}

impl<'a> Model for Items<'a> {
    ghost use Rattle.std.specs.Prelude.{List};
    ghost use Rattle.pe_fields.specs.declared.value.Item.{Item};

    ghost Value = { List Item };

    ghost view = { λ i. i.items.items };
}

impl<'a> Items<'a> {
    /// Owns the items.
    pub fn of(items: Vec<Item<'a>>) -> Items<'a>
        ensures { result ≡ items.entry.items }
    {
        Items { items }
    }

    /// The items.
    pub fn as_slice(&self) -> &[Item<'a>]
        ensures { result.now ≡ self.now }
    {
        self.items.as_slice()
    }
}

/// The value of a member, without the member's parameters.
#[derive(Debug, Drop)]
pub enum Value<'a> {
    /// A bare item; the truth value true where a key stands alone.
    Item(Bare<'a>),
    /// An inner list.
    Inner(Items<'a>),
}

/// What a key stands for in a dictionary (RFC 8941, section 3.2).
#[derive(Debug, Drop)]
pub struct Member<'a> {
    /// The value.
    pub value: Value<'a>,
    /// The parameters behind it.
    pub params: Params<'a>,
}
