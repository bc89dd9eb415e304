//! The summary of an output text.
ghost use Rattle.std.specs.Prelude.{◌≡◌, ◌<◌, ◌^◌, ◌++◌, ◌∷◌, [], length, IfOk, OnOk, IfSome, decimal};
ghost use Rattle.std.specs.Option.{option_map_or};
ghost use Rattle.pe_generator.specs.Summary as spec;
ghost use Rattle.pe_generator.specs.Summary.{Counts as CountsOf, parts_of, count_lines, row, six_lines};

use memchr::memchr;
use pe_base::put_number;
use std::alloc::{AllocError, Global};

/// How many lines of an output text there are of each kind that its summary counts.
#[derive(Clone, Copy, Debug, PartialEq, Eq)]
pub struct Counts {
    /// Answer lines whose answer is a refusal.
    pub refused: u64,
    /// Answer lines whose answer is `allowed`.
    pub allowed: u64,
    /// Answer lines whose answer is `denied` with a reason.
    pub denied: u64,
    /// Change lines.
    pub changes: u64,
}

/// What stands behind the first space.
#[tactic(auto, unfolding(crate::specs::Summary::behind_space))]
fn behind_space(line: &[u8]) -> &[u8]
    ensures { result.now ≡ spec.behind_space line.now }
{
    let mut rest = line;
    loop {
        match rest {
            [] => return rest,
            [byte, more @ ..] => {
                rest = more;
                if *byte == b' ' {
                    return rest;
                }
            }
        }
    }
}

impl Counts {
    /// Counts a line.
    fn add(&mut self, line: &[u8])
        requires refused { self.old.refused < 2 ^ 63 }
        requires allowed { self.old.allowed < 2 ^ 63 }
        requires denied { self.old.denied < 2 ^ 63 }
        requires changes { self.old.changes < 2 ^ 63 }
        ensures refused { CountsOf spec.is_refusal line.now self.old.refused self.new.refused }
        ensures allowed { CountsOf spec.is_allowed line.now self.old.allowed self.new.allowed }
        ensures denied { CountsOf spec.is_denial line.now self.old.denied self.new.denied }
        ensures changes { CountsOf spec.is_change line.now self.old.changes self.new.changes }
    {
        if line.starts_with(b"@") {
            self.changes += 1;
            return;
        }
        let answer = behind_space(line);
        self.refused += u64::from(answer.starts_with(b"refused "));
        self.allowed += u64::from(answer == b"allowed".as_slice());
        self.denied += u64::from(answer.starts_with(b"denied "));
    }
}

/// The first part of a text between its line feeds, and what stands behind it, if a line feed does.
fn first_part(text: &[u8]) -> (&[u8], Option<&[u8]>)
    ensures parts { parts_of text.now ≡ result.0.now ∷ option_map_or (λ rest. parts_of rest.now) result.1 [] }
    ensures shorter { IfSome result.1 (λ rest. length rest.now < length text.now) }
{
    match memchr(b'\n', text) {
        Some(end) => (&text[..end], Some(&text[end + 1..])),
        None => (text, None),
    }
}

/// Counts the lines of an output text.
pub fn count_answers(text: &[u8]) -> Counts
    ensures refused { result.refused ≡ count_lines spec.is_refusal text.now }
    ensures allowed { result.allowed ≡ count_lines spec.is_allowed text.now }
    ensures denied { result.denied ≡ count_lines spec.is_denial text.now }
    ensures changes { result.changes ≡ count_lines spec.is_change text.now }
{
    let mut counts = Counts {
        refused: 0,
        allowed: 0,
        denied: 0,
        changes: 0,
    };
    let mut rest = text;
    loop {
        let (line, behind) = first_part(rest);
        counts.add(line);
        match behind {
            Some(more) => rest = more,
            None => return counts,
        }
    }
}

/// Puts a line of the summary behind the text.
fn put_row(word: &str, number: u64, out: &mut Vec<u8>) -> Result<(), AllocError>
    ensures { OnOk result (out.new.items ≡ out.old.items ++ row word.now number) }
{
    out.extend_from_slice(word.as_bytes())?;
    out.push(b' ')?;
    put_number(number, out)?;
    out.push(b'\n')?;
    Ok(())
}

/// The summary of the output text of a script of so many lines: by how many of the text's lines are of
/// each kind, and how many bytes it has. `AllocError` where memory wants.
#[tactic(auto, unfolding(crate::specs::Summary::six_lines))]
pub fn summary_text(
    alloc: Global,
    count: u32,
    counts: &Counts,
    bytes: usize,
) -> Result<Vec<u8>, AllocError>
    ensures { IfOk result (λ out. out.items ≡ six_lines count counts.now.refused counts.now.allowed counts.now.denied counts.now.changes bytes) }
{
    let mut out = Vec::new(alloc);
    put_row("lines", u64::from(count), &mut out)?;
    put_row("refused", counts.refused, &mut out)?;
    put_row("allowed", counts.allowed, &mut out)?;
    put_row("denied", counts.denied, &mut out)?;
    put_row("changes", counts.changes, &mut out)?;
    put_row("bytes", bytes as u64, &mut out)?;
    Ok(out)
}
