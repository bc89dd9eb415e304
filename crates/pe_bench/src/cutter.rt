//! Cutting lines.
ghost use Rattle.std.specs.Prelude.{◌≡◌, OnOk, false};

use pe_lines::Cutter;
use std::alloc::{AllocError, Global};

/// How many bytes a text has at most that is fed again and again.
const TEXT: usize = 1_048_576;

/// A line of this length, with its line feed.
fn line(alloc: Global, length: usize) -> Result<Vec<u8>, AllocError> {
    let mut line = vec![in alloc; b'x'; length]?;
    line.push(b'\n')?;
    Ok(line)
}

/// A text of lines of this length.
fn text(alloc: Global, length: usize) -> Result<Vec<u8>, AllocError> {
    let line = line(alloc, length)?;
    let mut text = Vec::new(alloc);
    for _ in 0..TEXT / line.len().max(1) {
        text.extend_from_slice(&line)?;
    }
    Ok(text)
}

/// How many lines of this length are cut from so many bytes, fed in pieces of this size.
pub fn lines_cut(
    alloc: Global,
    bytes: usize,
    length: usize,
    piece: usize,
) -> Result<u64, AllocError> {
    let text = text(alloc, length)?;
    let mut cutter = Cutter::new(alloc);
    let mut lines = 0u64;
    'texts: for _ in 0..bytes / text.len().max(1) {
        let more = lines_fed(&mut cutter, &text, piece)?;
        lines = lines.saturating_add(more);
    }
    Ok(lines)
}

/// How many lines are whole once the text is fed in pieces of this size; they are taken.
fn lines_fed(cutter: &mut Cutter, text: &[u8], piece: usize) -> Result<u64, AllocError>
    requires { cutter.old.finished ≡ false }
    ensures { OnOk result (cutter.new.finished ≡ false) }
{
    let mut lines = 0u64;
    'pieces: for part in text.chunks(piece.max(1)) {
        cutter.feed(part)?;
        lines = lines.saturating_add(lines_whole(cutter));
    }
    Ok(lines)
}

/// How many whole lines the cutter has; they are taken.
fn lines_whole(cutter: &mut Cutter) -> u64
    ensures { cutter.new.finished ≡ cutter.old.finished }
{
    'lines: for lines in 0..u64::MAX {
        match cutter.next_line() {
            Some(_) => {}
            None => return lines,
        }
    }
    u64::MAX
}
