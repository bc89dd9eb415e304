//! What no contract says: that there is memory, and that the definitions give the rows that were meant.
ghost use Rattle.std.specs.Prelude.{◌≡◌};

use crate::{Cut, Cutter, OptionalText, Text, WordReader};
use std::alloc::{AllocError, Global};
use std::process::Abort;
use std::test::Fail;

/// A front, then so many letters x and an end.
fn long(alloc: Global, front: &[u8], count: usize, end: &[u8]) -> Result<Vec<u8>, AllocError> {
    let mut line = Vec::from_slice(alloc, front)?;
    for _ in 0..count {
        line.push(b'x')?;
    }
    line.extend_from_slice(end)?;
    Ok(line)
}

/// Puts a line behind the others: its first bytes, `+` for further ones and `|`; `!|` for one that is
/// too long.
fn note(out: &mut Vec<u8>, cut: Cut<'_>) -> Result<(), AllocError> {
    match cut {
        Cut::Bytes(line) => {
            out.extend_from_slice(&line[..line.len().min(8)])?;
            out.extend_from_slice(if line.len() > 8 { b"+|" } else { b"|" })
        }
        Cut::TooLong => out.extend_from_slice(b"!|"),
    }
}

/// Takes off each line that is whole.
fn drain(cutter: &mut Cutter, out: &mut Vec<u8>) -> Result<(), AllocError>
    ensures { cutter.new.finished ≡ cutter.old.finished }
{
    'lines: for _ in 0..u64::MAX {
        match cutter.next_line() {
            Some(cut) => note(out, cut)?,
            None => return Ok(()),
        }
    }
    Ok(())
}

/// The lines of an input that is fed in pieces of this size; no more than one line is kept.
fn lines(rt: &impl Abort, alloc: Global, input: &[u8], size: usize) -> Result<Vec<u8>, AllocError> {
    let mut cutter = Cutter::new(alloc);
    let mut out = Vec::new(alloc);
    'pieces: for piece in input.chunks(size.max(1)) {
        cutter.feed(piece)?;
        drain(&mut cutter, &mut out)?;
        assert!(rt; cutter.kept() <= 16_385);
    }
    cutter.finish();
    drain(&mut cutter, &mut out)?;
    Ok(out)
}

#[test]
fn lines_come_alike_in_any_pieces(rt: HostRuntime) -> Result<(), Fail> {
    let rows: [(&[u8], usize, &[u8], &[u8]); 16] = [
        (b"", 0, b"", b""),
        (b"a", 0, b"", b"a|"),
        (b"a\n", 0, b"", b"a|"),
        (b"a\n\nb", 0, b"", b"a||b|"),
        (b"\r", 0, b"", b"|"),
        (b"a\r\n\rb\r\r\n\n", 0, b"", b"a|\rb\r||"),
        (b"", 16_384, b"\n", b"xxxxxxxx+|"),
        (b"", 16_384, b"\r\n", b"xxxxxxxx+|"),
        (b"", 16_384, b"\r", b"xxxxxxxx+|"),
        (b"", 16_385, b"\n", b"!|"),
        (b"", 16_385, b"\r\nb\n", b"!|b|"),
        (b"a\n", 16_385, b"", b"a|!|"),
        (b"", 16_384, b"\rx\n", b"!|"),
        (b"#", 16_383, b"\n", b"#xxxxxxx+|"),
        (b"#", 16_384, b"\n", b"!|"),
        (b"# a\n#", 50_000, b"\n# b", b"# a|!|# b|"),
    ];
    for (front, count, end, want) in rows {
        let input = long(rt.alloc(), front, count, end)?;
        for size in [1, 7, 16_384, 100_000] {
            let found = lines(&rt, rt.alloc(), &input, size)?;
            assert_eq!(rt; found.as_slice(), want, "pieces of {size}");
        }
    }
    Ok(())
}

/// The words of a line up to its first fault: each text with `|` behind it, `q` in front of a quoted
/// one, and `!` in the fault's place. None where the line has a bad byte.
fn shown(alloc: Global, line: &[u8]) -> Result<Option<Vec<u8>>, AllocError> {
    let Some(mut reader) = WordReader::of(line) else {
        return Ok(None);
    };
    let mut out = Vec::new(alloc);
    while let Some(word) = reader.next() {
        if word.bare().is_none() {
            out.push(b'q')?;
        }
        let text = word.text(alloc)?;
        out.extend_from_slice(text.as_slice())?;
        out.push(b'|')?;
    }
    if !reader.is_done() {
        out.push(b'!')?;
    }
    Ok(Some(out))
}

#[test]
fn words_come_up_to_the_first_fault(rt: HostRuntime) -> Result<(), Fail> {
    let rows: [(&[u8], &[u8]); 17] = [
        (b"", b""),
        (b" \t ", b""),
        (b"0 tick", b"0|tick|"),
        (b"\t10  policy f1 camera ", b"10|policy|f1|camera|"),
        (b"\"\" \"a b\"", b"q|qa b|"),
        (
            b"x\\y \"(self \\\"https://p.example\\\")\"",
            b"x\\y|q(self \"https://p.example\")|",
        ),
        (b"\"\\\\\\\"\"\t#", b"q\\\"|#|"),
        (b"\"\\\\\\\\n\" x", b"q\\\\n|x|"),
        (b"\"\\\"abcdefgh\\\"ij\"", b"q\"abcdefgh\"ij|"),
        (b"# a comment", b"#|a|comment|"),
        (b"\"open", b"!"),
        (b"\"a\\\"", b"!"),
        (b"\"a\\n\"", b"!"),
        (b"a\"b\"", b"!"),
        (b"0 \"a\"b c", b"0|!"),
        (b"0 \"a\"\"b\"", b"0|!"),
        (b"0 tick \"", b"0|tick|!"),
    ];
    for (line, want) in rows {
        let found = shown(rt.alloc(), line)?;
        assert_eq!(rt; found.as_deref(), Some(want));
    }
    Ok(())
}

/// The longest line, of 8,192 words.
#[test]
fn words_of_the_longest_line(rt: HostRuntime) -> Result<(), Fail> {
    let mut line = Vec::new(rt.alloc());
    let mut want = Vec::new(rt.alloc());
    for _ in 0..8_192 {
        line.extend_from_slice(b"x ")?;
        want.extend_from_slice(b"x|")?;
    }
    assert_eq!(rt; line.len(), 16_384);
    let found = shown(rt.alloc(), line.as_slice())?;
    assert!(rt; found == Some(want));
    Ok(())
}

#[test]
fn bad_bytes_are_refused(rt: HostRuntime) {
    let rows: [&[u8]; 4] = [b"# a comment \x7f", b"\"open\x01", b"tick\r", b"\x80"];
    for line in rows {
        assert!(rt; WordReader::of(line).is_none());
    }
}

/// A text that there may be keeps its bytes, be they lent or owned.
#[test]
fn optional_texts_keep_their_bytes(rt: HostRuntime) -> Result<(), Fail> {
    let none = OptionalText::none();
    assert!(rt; !none.is_some());
    assert_eq!(rt; none.get(), None);
    assert!(rt; none.into_text().is_none());
    let joined = Text::joined(rt.alloc(), Text::lent(b"a"), b", ", b"b")?;
    let rows: [(Text<'_>, &[u8]); 2] = [(Text::lent(b"camera"), b"camera"), (joined, b"a, b")];
    for (text, want) in rows {
        let text = OptionalText::of(text);
        assert!(rt; text.is_some());
        assert_eq!(rt; text.get(), Some(want));
        let back = text.into_text();
        assert_eq!(rt; back.as_ref().map(Text::as_slice), Some(want));
    }
    Ok(())
}
