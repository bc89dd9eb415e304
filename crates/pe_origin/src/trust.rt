//! Potentially trustworthy URLs.
ghost use Rattle.std.specs.Prelude.{◌≡◌};
ghost use Rattle.pe_origin.specs.Trust as spec;

use crate::origin::Tuple;
use crate::place::{Place, PlaceKind};
use crate::scheme::{HostForm, Scheme};

fn is_local(form: HostForm, host: &[u8]) -> bool
    ensures { result ≡ spec.is_local form host.now }
{
    match form {
        HostForm::Domain => host == b"localhost".as_slice() || host.ends_with(b".localhost"),
        HostForm::V4 => host.starts_with(b"127."),
        HostForm::V6 => host == b"[::1]".as_slice(),
    }
}

fn is_trustworthy_tuple(tuple: &Tuple) -> bool
    ensures { result ≡ spec.is_trustworthy_tuple tuple.now }
{
    match tuple.scheme {
        Scheme::Https | Scheme::Wss => true,
        Scheme::Http | Scheme::Ws | Scheme::Ftp => is_local(tuple.form, tuple.host.as_slice()),
    }
}

/// Whether the URL is potentially trustworthy (W3C Secure Contexts, section 3.2).
pub fn trustworthy(place: &Place) -> bool
    ensures { result ≡ spec.is_trustworthy place.now }
{
    match place.kind {
        PlaceKind::Net => match &place.tuple {
            Some(tuple) => is_trustworthy_tuple(tuple),
            None => false,
        },
        PlaceKind::Blank | PlaceKind::Inline => true,
        PlaceKind::Other => false,
    }
}
