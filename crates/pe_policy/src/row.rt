//! What a document keeps of a feature.
ghost use Rattle.std.specs.Prelude.{◌≡◌};
ghost use Rattle.pe_policy.specs.PolicyValue as spec;

use pe_base::{Denial, DocNo, LinkRule};
use std::marker::Model;
use std::mem::size_of;

/// Which tests fail at a document, for one feature. At a top document only `own_header` can.
#[derive(Clone, Copy, Debug, PartialEq, Eq)]
pub struct Links {
    /// The embedder's declared policy has the feature and does not match the document's origin.
    pub embedder_header: bool,
    /// The container policy has the feature and does not match the document's origin.
    pub allow: bool,
    /// The container policy lacks the feature, whose default allowlist does not reach the document.
    pub by_default: bool,
    /// The document's own declared policy has the feature and does not match its origin.
    pub own_header: bool,
}

/// Links in one byte: the lowest bit is `embedder_header`, and the others follow in their order.
#[derive(Clone, Copy, Debug)]
struct LinkBits {
    bits: u8,
}

impl Model for LinkBits {
    ghost use Rattle.pe_policy.specs.declared.row.Links.{Links};
    ghost use Rattle.std.specs.Prelude.{◌≡◌};
    ghost use Rattle.pe_policy.specs.PackedRows.{links_of_bits, bits_of};

    ghost Value = { Links };

    ghost view = { λ l. links_of_bits l.bits };

    ghost invariant = { λ l. bits_of (links_of_bits l.bits) ≡ l.bits };

    ghost inverse = { λ l. record { bits = bits_of l } };
}

/// Why a feature is denied in a document, if it is, and which tests fail at the document. It takes 8
/// bytes.
#[derive(Clone, Copy, Debug)]
pub(crate) struct Row {
    rule: Option<LinkRule>,
    links: LinkBits,
    /// The document that the denial names; 1 where there is no denial.
    at: DocNo,
}

impl Model for Row {
    ghost use Rattle.pe_policy.specs.PolicyValue.{Row};
    ghost use Rattle.std.specs.Prelude.{◌≡◌};
    ghost use Rattle.pe_policy.specs.PackedRows.{denial_in, rule_of, document_of};

    ghost Value = { Row };

    ghost view = { λ r. record { denial = denial_in r.rule r.at; links = r.links } };

    ghost invariant = { λ r. document_of (denial_in r.rule r.at) ≡ r.at };

    ghost inverse = { λ r. record { rule = rule_of r.denial; links = r.links; at = document_of r.denial } };
}

impl Links {
    /// No test fails.
    pub(crate) const NONE: Links = Links {
        embedder_header: false,
        allow: false,
        by_default: false,
        own_header: false,
    };

    /// The denial by the first of the tests that fail, of a document below this embedder.
    fn denial(self, embedder: DocNo, doc: DocNo) -> Option<Denial>
        ensures { result ≡ spec.denial_by self embedder doc }
    {
        let (rule, at) = if self.embedder_header {
            (LinkRule::EmbedderHeader, embedder)
        } else if self.allow {
            (LinkRule::Allow, doc)
        } else if self.by_default {
            (LinkRule::Default, doc)
        } else if self.own_header {
            (LinkRule::OwnHeader, doc)
        } else {
            return None;
        };
        Some(Denial { rule, at })
    }
}

fn rule_below(rule: LinkRule) -> LinkRule
    ensures { result ≡ spec.rule_below rule }
{
    match rule {
        LinkRule::OwnHeader => LinkRule::EmbedderSelf,
        other => other,
    }
}

impl LinkBits {
    fn of(links: Links) -> LinkBits
        ensures { result ≡ links }
    {
        let mut bits = 0;
        if links.embedder_header {
            bits += 1;
        }
        if links.allow {
            bits += 2;
        }
        if links.by_default {
            bits += 4;
        }
        if links.own_header {
            bits += 8;
        }
        LinkBits { bits }
    }

    fn get(self) -> Links
        ensures { result ≡ self }
    {
        Links {
            embedder_header: self.bits % 2 == 1,
            allow: self.bits / 2 % 2 == 1,
            by_default: self.bits / 4 % 2 == 1,
            own_header: self.bits / 8 % 2 == 1,
        }
    }
}

impl Row {
    /// The row with this denial, or none.
    fn of(denial: Option<Denial>, links: Links) -> Row
        ensures { result ≡ record { denial = denial; links = links } }
    {
        prove!(size_of::<Row>() == 8);
        let links = LinkBits::of(links);
        match denial {
            Some(denial) => Row {
                rule: Some(denial.rule),
                links,
                at: denial.at,
            },
            None => Row {
                rule: None,
                links,
                at: DocNo::of(1),
            },
        }
    }

    /// The row of a feature that no test denies.
    pub(crate) fn allowed() -> Row
        ensures { result ≡ spec.allowed_row }
    {
        Row::of(None, Links::NONE)
    }

    /// The row of a top document at which these tests fail.
    pub(crate) fn at_top(links: Links, doc: DocNo) -> Row
        ensures { result ≡ spec.top_row links doc }
    {
        let denial = if links.own_header {
            Some(Denial {
                rule: LinkRule::OwnHeader,
                at: doc,
            })
        } else {
            None
        };
        Row::of(denial, links)
    }

    /// The row of a document at which these tests fail, below an embedder with this denial.
    pub(crate) fn at_child(above: Option<Denial>, links: Links, embedder: DocNo, doc: DocNo) -> Row
        ensures { result ≡ spec.child_row above links embedder doc }
    {
        let denial = match above {
            Some(above) => Some(Denial {
                rule: rule_below(above.rule),
                at: above.at,
            }),
            None => links.denial(embedder, doc),
        };
        Row::of(denial, links)
    }

    /// Why the feature is denied, if it is.
    pub(crate) fn denial(self) -> Option<Denial>
        ensures { result ≡ self.denial }
    {
        let rule = self.rule?;
        Some(Denial { rule, at: self.at })
    }

    /// Which tests fail at the document.
    pub(crate) fn links(self) -> Links
        ensures { result ≡ self.links }
    {
        self.links.get()
    }
}
