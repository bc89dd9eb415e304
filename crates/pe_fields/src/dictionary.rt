//! A dictionary (RFC 8941, section 3.2).
ghost use Rattle.std.specs.Prelude.{◌≡◌, ◌≢◌, ◌↔◌, ℕ, List, All, IsNone, IfOk, IfSome, IfNone, option_copied};
ghost use Rattle.pe_fields.specs.declared.value.Member.{Member};
ghost use Rattle.pe_fields.specs.Dictionary.{last_of};
ghost use Rattle.pe_fields.specs.Grammar.{IsField};
ghost use Rattle.pe_fields.specs.Reading.{dictionary};

use crate::fault::Fault;
use crate::lent::Lent;
use crate::reading::dictionary;
use crate::value::Member;
use std::alloc::{AllocError, Global};
use std::marker::Model;

/// A dictionary, seen as the list of its keys and members in their order, with repeats.
#[derive(Debug, Drop)]
pub struct Dictionary<'a> {
    members: Vec<(Lent<'a>, Member<'a>)>,
}

impl<'a> Model for Dictionary<'a> {
    ghost use Rattle.std.specs.Prelude.{List, ℕ};
    ghost use Rattle.pe_fields.specs.declared.value.Member.{Member};

    ghost Value = { List (List ℕ × Member) };

    ghost view = { λ d. d.members.items };
}

impl<'a> Dictionary<'a> {
    /// The last member of a key; None where the key has no member.
    #[tactic(auto, using(crate::proofs::Last::found_none))]
    pub fn get(&self, key: &[u8]) -> Option<&Member<'a>>
        ensures value { option_copied result ≡ last_of self.now key.now }
        ensures none { IsNone result ↔ All (λ entry. entry.0 ≢ key.now) self.now }
    {
        last(self.members.as_slice(), key)
    }

    /// The keys with their members, in their order and with repeats.
    pub fn entries(&self) -> &[(Lent<'a>, Member<'a>)]
        ensures { result.now ≡ self.now }
    {
        self.members.as_slice()
    }
}

/// The last of the members under a key, looked for from the last member on.
fn last<'s, 'a>(entries: &'s [(Lent<'a>, Member<'a>)], key: &[u8]) -> Option<&'s Member<'a>>
    ensures { option_copied result ≡ last_of entries.now key.now }
{
    for i in 0..entries.len() {
        let entry = &entries[entries.len() - 1 - i];
        if entry.0.as_slice() == key {
            return Some(&entry.1);
        }
    }
    None
}

/// The dictionary that the bytes of a field spell; None where they are not in the grammar. It is read
/// in one pass, and only the bytes of a string with an escape are copied.
pub fn parse_dictionary(alloc: Global, bytes: &[u8]) -> Result<Option<Dictionary<'_>>, AllocError>
    // What the reading of the text finds.
    ensures value { IfOk result (λ found. found ≡ dictionary bytes.now) }
    // What is read is in the grammar, and what is not read is not.
    ensures found { IfOk result (λ found. IfSome found (IsField bytes.now)) }
    ensures none { IfOk result (λ found. IfNone found
        ((members : List (List ℕ × Member)) → IsField bytes.now members → ⊥)) }
{
    match dictionary(alloc, bytes) {
        Ok(members) => Ok(Some(Dictionary { members })),
        Err(Fault::Malformed) => Ok(None),
        Err(Fault::Memory) => Err(AllocError),
    }
}
