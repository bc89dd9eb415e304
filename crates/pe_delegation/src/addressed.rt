//! Documents to which a message can be addressed.
ghost use Rattle.std.specs.Prelude.{◌≡◌};
ghost use Rattle.pe_origin.specs.declared.origin.Origin.{Origin};

use pe_frames::Numbered;
use pe_origin::Origin;

/// A document with an origin.
pub trait Addressed: Numbered {
    ghost origin_of: { Self → Origin };

    /// The origin of the document.
    fn origin(&self) -> &Origin
        ensures { result.now ≡ origin_of self.now };
}
