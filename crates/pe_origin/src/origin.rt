//! Origins.
ghost use Rattle.std.specs.Prelude.{◌≡◌, ◌↔◌, ◌++◌, IfOk, OnOk, IsTrue};
ghost use Rattle.pe_base.specs.Prefix.{IsPrefix};
ghost use Rattle.pe_origin.specs.Origins as spec;

use crate::scheme::{HostForm, Scheme};
use pe_base::{Bytes, DocNo, put_number};
use std::alloc::{AllocError, Global};

/// A tuple origin (HTML Standard, "origin").
#[derive(Debug, Drop, PartialEq, Eq, PartialOrd, Ord, Hash)]
pub struct Tuple {
    /// The scheme.
    pub scheme: Scheme,
    /// The host, as the URL parser writes it: an IPv6 address stands between brackets.
    pub host: Bytes,
    /// What the host is.
    pub form: HostForm,
    /// The port, also where it is the scheme's default.
    pub port: u16,
}

/// An origin (HTML Standard, "origin").
#[derive(Debug, Drop, PartialEq, Eq, PartialOrd, Ord, Hash)]
pub enum Origin {
    /// A tuple origin.
    Tuple(Tuple),
    /// The opaque origin of this document.
    Opaque(DocNo),
}

impl Tuple {
    /// An equal value of its own; `AllocError` where memory wants.
    pub fn copy(&self) -> Result<Tuple, AllocError>
        ensures { IfOk result (λ tuple. tuple ≡ self.now) }
    {
        Ok(Tuple {
            scheme: self.scheme,
            host: self.host.copy()?,
            form: self.form,
            port: self.port,
        })
    }
}

impl Origin {
    /// An equal value of its own; `AllocError` where memory wants.
    pub fn copy(&self) -> Result<Origin, AllocError>
        ensures { IfOk result (λ origin. origin ≡ self.now) }
    {
        match self {
            Origin::Tuple(tuple) => Ok(Origin::Tuple(tuple.copy()?)),
            Origin::Opaque(doc) => Ok(Origin::Opaque(*doc)),
        }
    }
}

/// Whether the two are same origin (HTML Standard, "same origin").
#[tactic(auto, using(crate::proofs::SameOrigin::is_same_origin_decides))]
pub fn same_origin(a: &Origin, b: &Origin) -> bool
    ensures value { result ≡ spec.is_same_origin a.now b.now }
    ensures equal { IsTrue result ↔ (a.now ≡ b.now) }
{
    *a == *b
}

/// Puts the serialization of a tuple origin behind a text.
fn put_tuple(tuple: &Tuple, out: &mut Vec<u8>) -> Result<(), AllocError>
    ensures appended { OnOk result (out.new.items ≡ out.old.items ++ spec.tuple_text tuple.now) }
    ensures front { IsPrefix out.old.items out.new.items }
{
    out.extend_from_slice(tuple.scheme.name().as_bytes())?;
    out.extend_from_slice(b"://")?;
    out.extend_from_slice(tuple.host.as_slice())?;
    if tuple.port == tuple.scheme.default_port() {
        return Ok(());
    }
    out.extend_from_slice(b":")?;
    put_number(u64::from(tuple.port), out)
}

/// Puts the text of an origin behind another: of a tuple its serialization (HTML Standard,
/// "serialization of an origin"), and of the opaque origin of document 3 `opaque:d3`. `AllocError` where
/// memory wants; what stood is then still a front of the text.
pub fn put_origin(origin: &Origin, out: &mut Vec<u8>) -> Result<(), AllocError>
    ensures appended { OnOk result (out.new.items ≡ out.old.items ++ spec.origin_text origin.now) }
    ensures front { IsPrefix out.old.items out.new.items }
{
    match origin {
        Origin::Tuple(tuple) => put_tuple(tuple, out),
        Origin::Opaque(doc) => {
            out.extend_from_slice(b"opaque:d")?;
            put_number(u64::from(doc.get()), out)
        }
    }
}

/// The text of an origin, as `put_origin` puts it. `AllocError` where memory wants.
pub fn origin_text(alloc: Global, origin: &Origin) -> Result<Vec<u8>, AllocError>
    ensures { IfOk result (λ text. text.items ≡ spec.origin_text origin.now) }
{
    let mut text = Vec::new(alloc);
    put_origin(origin, &mut text)?;
    Ok(text)
}
