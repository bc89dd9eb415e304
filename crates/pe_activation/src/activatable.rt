//! Documents that can be activated.
ghost use Rattle.std.specs.Prelude.{◌≡◌, Bool, IsTrue};
ghost use Rattle.pe_base.specs.declared.input.Stamp.{Stamp};
ghost use Rattle.pe_activation.specs.Stamps.{IsField};

use pe_base::Stamp;
use pe_frames::Numbered;

/// A document with the two stamps of user activation, and an origin. Setting a stamp changes that
/// stamp alone: a stamp that is set to what it is leaves the document, the later of two settings
/// counts, and the number, the origin and the other stamp stay. A document is same origin with itself.
pub trait Activatable: Numbered {
    ghost stamp_of: { Self → Stamp };

    ghost second_of: { Self → Stamp };

    ghost with_stamp: { Stamp → Self → Self };

    ghost with_second: { Stamp → Self → Self };

    ghost is_same_origin: { Self → Self → Bool };

    /// When it was last activated (HTML Standard, "last activation timestamp").
    fn stamp(&self) -> Stamp
        ensures { result ≡ stamp_of self.now };

    /// Sets that stamp alone.
    fn set_stamp(&mut self, stamp: Stamp)
        ensures { self.new ≡ with_stamp stamp self.old };

    /// The copy of the stamp that the last history action took (HTML Standard, "last history-action
    /// activation timestamp").
    fn second(&self) -> Stamp
        ensures { result ≡ second_of self.now };

    /// Sets the second stamp alone.
    fn set_second(&mut self, stamp: Stamp)
        ensures { self.new ≡ with_second stamp self.old };

    /// Whether the two are same origin (HTML Standard, "same origin").
    fn same_origin(&self, other: &Self) -> bool
        ensures { result ≡ is_same_origin self.now other.now };

    ghost stamp_is_a_field: { IsField stamp_of with_stamp };

    ghost second_is_a_field: { IsField second_of with_second };

    ghost second_stays: { (s : Stamp) (d : Self) → second_of (with_stamp s d) ≡ second_of d };

    ghost stamp_stays: { (s : Stamp) (d : Self) → stamp_of (with_second s d) ≡ stamp_of d };

    ghost number_stays: { (s : Stamp) (d : Self) → (Self.doc_no (with_stamp s d) ≡ Self.doc_no d) × (Self.doc_no (with_second s d) ≡ Self.doc_no d) };

    ghost origin_stays: { (s : Stamp) (d e : Self) → (is_same_origin (with_stamp s d) e ≡ is_same_origin d e) × (is_same_origin e (with_stamp s d) ≡ is_same_origin e d) × (is_same_origin (with_second s d) e ≡ is_same_origin d e) × (is_same_origin e (with_second s d) ≡ is_same_origin e d) };

    ghost same_as_itself: { (d : Self) → IsTrue (is_same_origin d d) };
}
