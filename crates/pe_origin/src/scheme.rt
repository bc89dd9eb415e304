//! Schemes and forms of hosts.
ghost use Rattle.std.specs.Prelude.{◌≡◌};
ghost use Rattle.pe_origin.specs.Schemes as spec;

/// A scheme whose URLs have a tuple origin (URL Standard, section 4.7 "origin").
#[derive(Clone, Copy, Debug, PartialEq, Eq, PartialOrd, Ord, Hash)]
pub enum Scheme {
    /// `http`.
    Http,
    /// `https`.
    Https,
    /// `ws`.
    Ws,
    /// `wss`.
    Wss,
    /// `ftp`.
    Ftp,
}

/// What a host is (URL Standard, section 3.1 "host").
#[derive(Clone, Copy, Debug, PartialEq, Eq, PartialOrd, Ord, Hash)]
pub enum HostForm {
    /// A domain.
    Domain,
    /// An IPv4 address.
    V4,
    /// An IPv6 address, which is written between brackets.
    V6,
}

impl Scheme {
    /// The scheme with this name, in lower case.
    #[tactic(auto, unfolding(crate::specs::Schemes::scheme_named))]
    pub(crate) fn named(name: &str) -> Option<Scheme>
        ensures { result ≡ spec.scheme_named name.now }
    {
        if name == "http" {
            Some(Scheme::Http)
        } else if name == "https" {
            Some(Scheme::Https)
        } else if name == "ws" {
            Some(Scheme::Ws)
        } else if name == "wss" {
            Some(Scheme::Wss)
        } else if name == "ftp" {
            Some(Scheme::Ftp)
        } else {
            None
        }
    }

    /// The name, in lower case.
    pub(crate) fn name(self) -> &'static str
        ensures { result.now ≡ spec.scheme_name self }
    {
        match self {
            Scheme::Http => "http",
            Scheme::Https => "https",
            Scheme::Ws => "ws",
            Scheme::Wss => "wss",
            Scheme::Ftp => "ftp",
        }
    }

    /// The port that a URL of the scheme has where it names none.
    pub(crate) fn default_port(self) -> u16
        ensures { result ≡ spec.default_port self }
    {
        match self {
            Scheme::Http | Scheme::Ws => 80,
            Scheme::Https | Scheme::Wss => 443,
            Scheme::Ftp => 21,
        }
    }
}
