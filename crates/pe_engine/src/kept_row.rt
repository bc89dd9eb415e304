//! The row of a document as the tree keeps it.
ghost use Rattle.std.specs.Prelude.{◌≡◌, refl, IfOk};
ghost use Rattle.pe_activation.specs.Stamps.{IsField};
ghost use Rattle.pe_origin.specs.Origins.{is_same_origin};
ghost use Rattle.pe_engine.specs.Changing.{with_attribute};
ghost use Rattle.pe_engine.specs.Origins.{same_as_itself};
ghost use Rattle.pe_engine.specs.Rows.{no_kept_attributes, blocks, with_delivery};

use crate::attribute::Attribute;
use crate::row::{Attributes, Row};
use pe_activation::Activatable;
use pe_base::{DocNo, Millis, Stamp};
use pe_changes::Governed;
use pe_delegation::Addressed;
use pe_features::{Capability, Feature};
use pe_frames::Numbered;
use pe_origin::{Origin, same_origin};
use std::alloc::{AllocError, Global};
use std::marker::Model;
use std::mem::replace;

/// The row of a document in memory of its own, seen by contracts as the row. It is one word, which is
/// all that moves when it is given to the tree and when the tree gives it back.
#[derive(Drop)]
pub struct KeptRow {
    row: Box<Row>,
}

impl Model for KeptRow {
    ghost use Rattle.std.specs.Box.{box_value};
    ghost use Rattle.pe_engine.specs.declared.row.Row.{Row};

    ghost Value = { Row };

    ghost view = { λ k. box_value k.row };
}

impl KeptRow {
    /// Keeps the row. `AllocError` where memory wants.
    pub(crate) fn of(alloc: Global, row: Row) -> Result<KeptRow, AllocError>
        ensures { IfOk result (λ kept. kept ≡ row) }
    {
        Ok(KeptRow {
            row: Box::new(alloc, row)?,
        })
    }

    /// The row.
    pub(crate) fn get(&self) -> &Row
        ensures { result.now ≡ self.now }
    {
        &self.row
    }

    /// Gives the frame of the document this attribute.
    pub(crate) fn give(&mut self, attribute: Attribute)
        ensures { self.new ≡ record self.old { attributes = with_attribute attribute self.old.attributes } }
    {
        self.row.attributes.give(attribute);
    }

    /// Gives the frame of the document these attributes, in place of those that it has.
    pub(crate) fn set_attributes(&mut self, attributes: Attributes)
        ensures { self.new ≡ record self.old { attributes = attributes } }
    {
        self.row.attributes = attributes;
    }

    /// Takes the attributes of the document's frame out, and leaves none.
    pub(crate) fn take_attributes(&mut self) -> Attributes
        ensures taken { result ≡ self.old.attributes }
        ensures none { self.new ≡ record self.old { attributes = no_kept_attributes } }
    {
        replace(&mut self.row.attributes, Attributes::none())
    }

    /// Notes that the document was delivered the capability at this time, or, with None, that it spent it.
    pub(crate) fn note(&mut self, capability: Capability, time: Option<Millis>)
        ensures { self.new ≡ record self.old { delivered = with_delivery capability time self.old.delivered } }
    {
        self.row.delivered.note(capability, time);
    }
}

impl Numbered for KeptRow {
    ghost doc_no = { λ x. x.doc };

    fn number(&self) -> DocNo {
        self.row.doc
    }
}

impl Addressed for KeptRow {
    ghost origin_of = { λ x. x.origin };

    fn origin(&self) -> &Origin {
        &self.row.origin
    }
}

impl Governed for KeptRow {
    ghost blocks_feature = { blocks };

    fn is_blocked(&self, feature: Feature) -> bool {
        self.row.is_blocked(feature)
    }
}

impl Activatable for KeptRow {
    ghost stamp_of = { λ x. x.stamp };

    ghost second_of = { λ x. x.second };

    ghost with_stamp = { λ s x. record x { stamp = s } };

    ghost with_second = { λ s x. record x { second = s } };

    ghost is_same_origin = { λ x y. is_same_origin x.origin y.origin };

    fn stamp(&self) -> Stamp {
        self.row.stamp
    }

    fn set_stamp(&mut self, stamp: Stamp) {
        self.row.stamp = stamp;
    }

    fn second(&self) -> Stamp {
        self.row.second
    }

    fn set_second(&mut self, stamp: Stamp) {
        self.row.second = stamp;
    }

    fn same_origin(&self, other: &KeptRow) -> bool {
        same_origin(&self.row.origin, &other.row.origin)
    }

    ghost stamp_is_a_field = { record { set_is_read = λ s d. refl; read_is_set = λ d. refl; last_counts = λ s t d. refl } };

    ghost second_is_a_field = { record { set_is_read = λ s d. refl; read_is_set = λ d. refl; last_counts = λ s t d. refl } };

    ghost second_stays = { λ s d. refl };

    ghost stamp_stays = { λ s d. refl };

    ghost number_stays = { λ s d. (refl, refl) };

    ghost origin_stays = { λ s d e. (refl, refl, refl, refl) };

    ghost same_as_itself = { λ d. same_as_itself d.origin };
}
