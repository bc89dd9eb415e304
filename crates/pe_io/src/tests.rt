//! What no contract says: how the sources and sinks of the runtime's readers and writers deal with
//! failing ones, that there is memory for a sink, and rows of sizes and failing calls.
use crate::{Failed, MemSink, MemSource, Sink, Source, StdSink, StdSource, TextSink, write_whole};
use std::io;
use std::io::{ErrorKind, Read, Write};
use std::test::Fail;

/// Fails so many times, and then moves at most two bytes a call.
#[derive(Drop)]
struct Failing<T> {
    inner: T,
    kind: ErrorKind,
    failures: u32,
}

impl<T> Failing<T> {
    fn fail(&mut self) -> io::Result<()> {
        if self.failures > 0 {
            self.failures -= 1;
            return Err(self.kind.into());
        }
        Ok(())
    }
}

impl<R: Read> Read for Failing<R> {
    fn read(&mut self, room: &mut [u8]) -> io::Result<usize> {
        self.fail()?;
        let most = room.len().min(2);
        self.inner.read(&mut room[..most])
    }
}

impl<W: Write> Write for Failing<W> {
    fn write(&mut self, piece: &[u8]) -> io::Result<usize> {
        self.fail()?;
        let most = piece.len().min(2);
        self.inner.write(&piece[..most])
    }

    fn flush(&mut self) -> io::Result<()> {
        self.inner.flush()
    }
}

/// How a reader or writer fails, and whether the call that meets it fails too.
const FAILURES: [(ErrorKind, u32, bool); 4] = [
    (ErrorKind::Interrupted, 0, false),
    (ErrorKind::Interrupted, 1000, false),
    (ErrorKind::Interrupted, 1001, true),
    (ErrorKind::UnexpectedEof, 1, true),
];

#[test]
fn failing_readers(rt: HostRuntime) {
    for (kind, failures, fails) in FAILURES {
        let inner = b"abc".as_slice();
        let mut source = StdSource::new(Failing {
            inner,
            kind,
            failures,
        });
        let mut room = [0; 8];
        if fails {
            assert_eq!(rt; source.read(&mut room), Err(Failed), "{failures} times");
        }
        assert_eq!(rt; source.read(&mut room), Ok(2), "{failures} times");
        assert_eq!(rt; source.read(&mut room[2..]), Ok(1));
        assert_eq!(rt; &room[..3], b"abc".as_slice());
        assert_eq!(rt; source.read(&mut room), Ok(0));
    }
}

#[test]
fn failing_writers(rt: HostRuntime) {
    for (kind, failures, fails) in FAILURES {
        let mut taken = [0; 3];
        let mut sink = StdSink::new(Failing {
            inner: taken.as_mut_slice(),
            kind,
            failures,
        });
        if fails {
            assert_eq!(rt; sink.write(b"abc"), Err(Failed), "{failures} times");
        }
        assert_eq!(rt; sink.write(b""), Ok(0));
        assert_eq!(rt; sink.write(b"abc"), Ok(2), "{failures} times");
        assert_eq!(rt;
            write_whole(&mut sink, b"cd"),
            Err(Failed),
            "room for one more"
        );
        assert_eq!(rt; &taken[..], b"abc".as_slice());
    }
}

#[test]
fn sizes_and_failing_calls_of_sources(rt: HostRuntime) -> Result<(), Fail> {
    let rows: [(&[usize], &[u64], [Result<usize, Failed>; 4], u64); 4] = [
        (&[], &[], [Ok(4), Ok(1), Ok(0), Ok(0)], 0),
        (&[0, 3], &[], [Ok(1), Ok(3), Ok(1), Ok(0)], 0),
        (&[9], &[1], [Ok(4), Err(Failed), Ok(1), Ok(0)], 1),
        (
            &[1, 1, 1],
            &[3, 0, 3],
            [Err(Failed), Ok(1), Ok(1), Err(Failed)],
            2,
        ),
    ];
    for (sizes, fails, answers, faults) in rows {
        let bytes = b"abcde".to_vec(rt.alloc())?;
        let sizes = sizes.to_vec(rt.alloc())?;
        let fails = fails.to_vec(rt.alloc())?;
        let mut source = MemSource::new(bytes, sizes, fails);
        for answer in answers {
            assert_eq!(rt; source.read(&mut [0; 4]), answer);
        }
        assert_eq!(rt; source.count(), faults);
    }
    Ok(())
}

#[test]
fn sizes_and_failing_calls_of_sinks(rt: HostRuntime) -> Result<(), Fail> {
    let rows: [(&[usize], &[u64], [Result<usize, Failed>; 3], &[u8]); 4] = [
        (&[], &[], [Ok(4), Ok(1), Err(Failed)], b"abcda"),
        (&[0, 3], &[], [Ok(1), Ok(3), Ok(1)], b"aabca"),
        (&[9], &[1], [Ok(4), Err(Failed), Ok(1)], b"abcda"),
        (&[2], &[1, 2], [Ok(2), Err(Failed), Err(Failed)], b"ab"),
    ];
    for (sizes, fails, answers, written) in rows {
        let sizes = sizes.to_vec(rt.alloc())?;
        let fails = fails.to_vec(rt.alloc())?;
        let mut sink = MemSink::new(rt.alloc(), 5, sizes, fails)?;
        for answer in answers {
            assert_eq!(rt; sink.write(b"abcd"), answer);
        }
        assert_eq!(rt; sink.as_slice(), written);
    }
    Ok(())
}

#[test]
fn a_full_sink_takes_the_empty_piece(rt: HostRuntime) -> Result<(), Fail> {
    let mut sink = MemSink::new(rt.alloc(), 3, Vec::new(rt.alloc()), Vec::new(rt.alloc()))?;
    assert_eq!(rt; write_whole(&mut sink, b"1 ok\n"), Err(Failed));
    assert_eq!(rt; sink.as_slice(), b"1 o".as_slice());
    assert_eq!(rt; sink.write(b""), Ok(0));
    Ok(())
}

/// The second call fails: a piece that one call takes is written by that call alone.
#[test]
fn a_piece_takes_no_more_calls_than_it_needs(rt: HostRuntime) -> Result<(), Fail> {
    let fails = vec![in rt.alloc(); 1u64]?;
    let mut sink = MemSink::new(rt.alloc(), 9, Vec::new(rt.alloc()), fails)?;
    assert_eq!(rt; write_whole(&mut sink, b"ab"), Ok(()));
    assert_eq!(rt; write_whole(&mut sink, b"c"), Err(Failed));
    assert_eq!(rt; sink.as_slice(), b"ab".as_slice());
    Ok(())
}

#[test]
fn a_kept_text_grows_with_what_is_written(rt: HostRuntime) -> Result<(), Fail> {
    let mut sink = TextSink::new(rt.alloc());
    assert_eq!(rt; sink.as_slice(), b"".as_slice());
    assert_eq!(rt; sink.write(b"1 ok\n"), Ok(5));
    assert_eq!(rt; sink.write(b""), Ok(0));
    assert_eq!(rt; write_whole(&mut sink, b"2 allowed\n"), Ok(()));
    assert_eq!(rt; sink.as_slice(), b"1 ok\n2 allowed\n".as_slice());
    Ok(())
}
