//! Words of a text in ASCII.
ghost use Rattle.std.specs.Prelude.{◌≡◌, IfOk, map};
ghost use Rattle.std.specs.Cmp.Lexicographic.{bytes_decides};
ghost use Rattle.pe_allowlist.specs.AsciiWords as spec;
ghost use Rattle.pe_allowlist.specs.ContainerPolicy.{is_semicolon, is_keyword};

use std::alloc::{AllocError, Global};

/// The pieces between semicolons, empty ones too.
pub(crate) fn pieces(alloc: Global, text: &[u8]) -> Result<Vec<&[u8]>, AllocError>
    ensures { IfOk result (λ pieces. map (λ x. x.now) pieces.items ≡ spec.pieces_at is_semicolon text.now) }
{
    text.split(|b| *b == b';').collect(alloc)
}

/// Whether the byte is ASCII whitespace.
pub fn is_whitespace(b: u8) -> bool
    ensures { result ≡ spec.is_ascii_whitespace b }
{
    match b {
        b'\t' | b'\n' | 0x0C | b'\r' | b' ' => true,
        _ => false,
    }
}

/// The words between ASCII whitespace.
pub(crate) fn words(alloc: Global, text: &[u8]) -> Result<Vec<&[u8]>, AllocError>
    ensures { IfOk result (λ words. map (λ x. x.now) words.items ≡ spec.ascii_words text.now) }
{
    text.split(|b| is_whitespace(*b))
        .filter(|word| !word.is_empty())
        .collect(alloc)
}

/// Whether the word is this keyword, which has no ASCII upper letter, without ASCII case.
#[tactic(auto, using(crate::proofs::WordLaws::keyword_test))]
pub(crate) fn is_keyword(word: &[u8], keyword: &[u8]) -> bool
    ensures { result ≡ is_keyword word.now (spec.lowercase keyword.now) }
{
    word.eq_ignore_ascii_case(keyword)
}
