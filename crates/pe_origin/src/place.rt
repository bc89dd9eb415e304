//! What the engine knows of a URL.
ghost use Rattle.std.specs.Prelude.{◌≡◌, ◌≢◌, ◌↔◌, Some, None, IfOk, IfErr, IsSome};
ghost use Rattle.url.specs.Parser.{parse_url};
ghost use Rattle.url.specs.Parts.{host_or_empty};
ghost use Rattle.pe_origin.specs.Places as spec;
ghost use Rattle.pe_origin.specs.Usual as usual;
ghost use Rattle.pe_origin.specs.Places.{place_at, place_of_parsed};
ghost use Rattle.pe_origin.specs.declared.place.PlaceFault.TheVariants.{NotAUrl};
ghost use Rattle.pe_origin.specs.declared.place.PlaceKind.TheVariants.{Net};

use crate::origin::Tuple;
use crate::scheme::{HostForm, Scheme};
use crate::usual::{Authority, usual_authority};
use pe_base::Bytes;
use std::alloc::{AllocError, Global};
use thiserror::Error;
use url::{Host, ParseError, Url};

/// What a URL names.
#[derive(Clone, Copy, Debug, PartialEq, Eq, PartialOrd, Ord, Hash)]
pub enum PlaceKind {
    /// A resource under a tuple origin: the scheme is http, https, ws, wss or ftp.
    Net,
    /// The URL is about:blank, with any query and fragment.
    Blank,
    /// The scheme is `data`.
    Inline,
    /// Any other URL.
    Other,
}

/// What the engine knows of a URL.
#[derive(Debug, Drop, PartialEq, Eq, PartialOrd, Ord, Hash)]
pub struct Place {
    /// The kind.
    pub kind: PlaceKind,
    /// The tuple origin. A place that was read has one exactly where its kind is `Net`.
    pub tuple: Option<Tuple>,
}

/// Why a text was read as no place.
#[derive(Clone, Copy, Debug, PartialEq, Eq, Error)]
pub enum PlaceFault {
    /// The text is not UTF-8, or the URL parser refuses it.
    #[error("the text is no URL")]
    NotAUrl,
    /// Memory wants, or the URL would pass 4 GB.
    #[error("out of memory")]
    Memory,
}

fn form_of(url: &Url) -> HostForm
    ensures { result ≡ spec.form_of (host_or_empty url.now) }
{
    match url.host() {
        Some(Host::Ipv4(_)) => HostForm::V4,
        Some(Host::Ipv6(_)) => HostForm::V6,
        _ => HostForm::Domain,
    }
}

fn kind_without_tuple(url: &Url) -> PlaceKind
    ensures value { result ≡ spec.kind_without_tuple url.now }
    ensures not_net { result ≢ Net }
{
    if url.scheme() == "about" && url.path() == "blank" {
        PlaceKind::Blank
    } else if url.scheme() == "data" {
        PlaceKind::Inline
    } else {
        PlaceKind::Other
    }
}

#[tactic(auto, using(crate::proofs::Hosts::host_shown), unfolding(crate::specs::Places::tuple_of))]
fn tuple_of(alloc: Global, scheme: Scheme, url: &Url) -> Result<Tuple, AllocError>
    ensures { IfOk result (λ tuple. tuple ≡ spec.tuple_of scheme url.now) }
{
    let host = url.host_str().unwrap_or("").as_bytes();
    Ok(Tuple {
        scheme,
        host: Bytes::copy_of(alloc, host)?,
        form: form_of(url),
        port: url.port().unwrap_or(scheme.default_port()),
    })
}

#[tactic(auto, unfolding(crate::specs::Places::place_of))]
fn place_of(alloc: Global, url: &Url) -> Result<Place, AllocError>
    ensures value { IfOk result (λ place. place ≡ spec.place_of url.now) }
    ensures net { IfOk result (λ place. IsSome place.tuple ↔ (place.kind ≡ Net)) }
{
    match Scheme::named(url.scheme()) {
        Some(scheme) => Ok(Place {
            kind: PlaceKind::Net,
            tuple: Some(tuple_of(alloc, scheme, url)?),
        }),
        None => Ok(Place {
            kind: kind_without_tuple(url),
            tuple: None,
        }),
    }
}

fn net_place(alloc: Global, authority: Authority<'_>) -> Result<Place, AllocError>
    ensures { IfOk result (λ place. place ≡ usual.net_place authority.entry.scheme authority.entry.host.now authority.entry.port) }
{
    let tuple = Tuple {
        scheme: authority.scheme,
        host: Bytes::copy_of(alloc, authority.host)?,
        form: HostForm::Domain,
        port: authority.port,
    };
    Ok(Place {
        kind: PlaceKind::Net,
        tuple: Some(tuple),
    })
}

fn read_url(alloc: Global, text: &str) -> Result<Place, PlaceFault>
    ensures read { IfOk result (λ place. place_of_parsed (parse_url None text.now) ≡ Some place) }
    ensures net { IfOk result (λ place. IsSome place.tuple ↔ (place.kind ≡ Net)) }
    ensures not_a_url { IfErr result (λ fault. fault ≡ NotAUrl → place_of_parsed (parse_url None text.now) ≡ None) }
{
    if let Some(authority) = usual_authority(text.as_bytes()) {
        return net_place(alloc, authority).map_err(|_| PlaceFault::Memory);
    }
    match Url::parse(alloc, text) {
        Ok(url) => place_of(alloc, &url).map_err(|_| PlaceFault::Memory),
        Err(ParseError::OutOfMemory | ParseError::Overflow) => Err(PlaceFault::Memory),
        Err(_) => Err(PlaceFault::NotAUrl),
    }
}

/// Reads a URL by the URL Standard's parser, without a base URL. `NotAUrl` comes exactly where the
/// text is not UTF-8 or the parser refuses it, as long as there is room.
#[tactic(auto, using(crate::proofs::Utf8::is_utf8_holds, crate::proofs::Utf8::is_utf8_fails), unfolding(crate::specs::Places::place_at))]
pub fn read_place(alloc: Global, text: &[u8]) -> Result<Place, PlaceFault>
    ensures read { IfOk result (λ place. place_at text.now ≡ Some place) }
    ensures net { IfOk result (λ place. IsSome place.tuple ↔ (place.kind ≡ Net)) }
    ensures not_a_url { IfErr result (λ fault. fault ≡ NotAUrl → place_at text.now ≡ None) }
{
    match str::from_utf8(text) {
        Ok(text) => read_url(alloc, text),
        Err(_) => Err(PlaceFault::NotAUrl),
    }
}
