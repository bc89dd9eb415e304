//! URLs of the usual form, whose origin is read in one pass over what stands before the path.
ghost use Rattle.std.specs.Prelude.{◌≡◌, ◌<◌, ◌≤◌, ◌++◌, ◌∷◌, true, false, length, take, None, Some, Ok, IfSome, IsTrue, All};
ghost use Rattle.std.specs.Char.{is_ascii_digit};
ghost use Rattle.url.specs.Ascii.{colon, dot};
ghost use Rattle.url.specs.Input.{rsplit_once};
ghost use Rattle.url.specs.Ipv4.{ends_in_a_number};
ghost use Rattle.url.specs.Parser.{parse_url};
ghost use Rattle.pe_origin.specs.Places.{place_of_parsed};
ghost use Rattle.pe_origin.specs.Schemes.{scheme_name};
ghost use Rattle.pe_origin.specs.Usual as spec;
ghost use Rattle.pe_origin.specs.Usual.{IsHost, HasPort, net_place};

use crate::scheme::Scheme;

/// What a URL says before its path.
#[derive(Clone, Copy)]
pub struct Authority<'a> {
    /// The scheme.
    pub scheme: Scheme,
    /// The host, a domain.
    pub host: &'a [u8],
    /// The port, also where it is the scheme's default.
    pub port: u16,
}

/// The scheme at the front of a text, and what stands behind `://`.
fn split_scheme(text: &[u8]) -> Option<(Scheme, &[u8])>
    ensures { IfSome result (λ found. text.now ≡ scheme_name found.0 ++ 58 ∷ 47 ∷ 47 ∷ found.1.now) }
{
    match text {
        [b'h', b't', b't', b'p', b's', b':', b'/', b'/', rest @ ..] => Some((Scheme::Https, rest)),
        [b'h', b't', b't', b'p', b':', b'/', b'/', rest @ ..] => Some((Scheme::Http, rest)),
        [b'w', b's', b's', b':', b'/', b'/', rest @ ..] => Some((Scheme::Wss, rest)),
        [b'w', b's', b':', b'/', b'/', rest @ ..] => Some((Scheme::Ws, rest)),
        [b'f', b't', b'p', b':', b'/', b'/', rest @ ..] => Some((Scheme::Ftp, rest)),
        _ => None,
    }
}

fn is_host_byte(byte: u8) -> bool
    ensures { result ≡ spec.is_host_byte byte }
{
    matches!(byte, b'a'..=b'z' | b'0'..=b'9' | b'.' | b'-')
}

/// How many bytes at the front of a text may stand in a usual host.
fn host_len(text: &[u8]) -> usize
    ensures within { result ≤ length text.now }
    ensures bytes { All (λ b. spec.is_host_byte b ≡ true) (take result text.now) }
{
    match text.iter().position(|byte| !is_host_byte(*byte)) {
        Some(length) => length,
        None => text.len(),
    }
}

/// What stands behind the last dot of a host, or the whole host where it has none.
fn last_label(host: &[u8]) -> &[u8]
    ensures { result.now ≡ (rsplit_once dot host.now).1 }
{
    match host.iter().rposition(|byte| *byte == b'.') {
        Some(dot) => &host[dot + 1..],
        None => host,
    }
}

/// Whether the last label of a host begins with no digit.
fn is_named(host: &[u8]) -> bool
    ensures { IsTrue result → (0 < length host.now) × (ends_in_a_number host.now ≡ false) }
{
    match last_label(host) {
        [first, ..] => !first.is_ascii_digit(),
        [] => false,
    }
}

/// The host at the front of a text, and what stands behind it.
fn split_host(text: &[u8]) -> Option<(&[u8], &[u8])>
    ensures { IfSome result (λ found. (text.now ≡ found.0.now ++ found.1.now) × IsHost found.0.now) }
{
    let (host, rest) = text.split_at(host_len(text));
    if is_named(host) {
        Some((host, rest))
    } else {
        None
    }
}

/// What stands behind a colon at the front of a text.
fn behind_colon(text: &[u8]) -> Option<&[u8]>
    ensures { IfSome result (λ rest. text.now ≡ colon ∷ rest.now) }
{
    match text {
        [b':', rest @ ..] => Some(rest),
        _ => None,
    }
}

/// The port that these digits write; none where there are none, or where it does not fit.
fn port_of(digits: &[u8]) -> Option<u16>
    ensures digits { IfSome result (λ _. All (λ b. is_ascii_digit b ≡ true) digits.now) }
    ensures read { IfSome result (λ port. (scheme : Scheme) → spec.port_in scheme digits.now ≡ Ok port) }
{
    if digits.is_empty() {
        return None;
    }
    let mut port = 0u16;
    for &digit in digits {
        if !digit.is_ascii_digit() {
            return None;
        }
        let longer = u32::from(port) * 10 + u32::from(digit - b'0');
        port = u16::try_from(longer).ok()?;
    }
    Some(port)
}

/// The port at the front of a text, or the scheme's own, and what stands behind it.
fn split_port(scheme: Scheme, text: &[u8]) -> Option<(u16, &[u8])>
    ensures { IfSome result (λ found. HasPort scheme text.now found.0 found.1.now) }
{
    let Some(rest) = behind_colon(text) else {
        return Some((scheme.default_port(), text));
    };
    let length = rest.iter().position(|byte| !byte.is_ascii_digit());
    let (digits, rest) = rest.split_at(length.unwrap_or(rest.len()));
    Some((port_of(digits)?, rest))
}

/// Whether nothing follows, or a path, a query or a fragment.
fn is_tail(text: &[u8]) -> bool
    ensures { result ≡ spec.is_tail text.now }
{
    match text {
        [first, ..] => matches!(*first, b'/' | b'?' | b'#'),
        [] => true,
    }
}

/// What a URL of the usual form says before its path: one of the five schemes in lower case, `://`, a
/// host of letters in lower case, digits, dots and dashes whose last label begins with no digit, and a
/// port or none. The parser makes nothing else of it, whatever the path, the query and the fragment are.
/// A text of any other form gives none, also where it is a URL.
pub fn usual_authority(text: &[u8]) -> Option<Authority<'_>>
    ensures { IfSome result (λ found. place_of_parsed (parse_url None text.now)
        ≡ Some (net_place found.scheme found.host.now found.port)) }
{
    let (scheme, rest) = split_scheme(text)?;
    let (host, rest) = split_host(rest)?;
    let (port, rest) = split_port(scheme, rest)?;
    if is_tail(rest) {
        Some(Authority { scheme, host, port })
    } else {
        None
    }
}
