//! Sources, sinks and clocks in memory: which calls fail, and what comes of the others.

ghost use Rattle.std.specs.Prelude.{◌<◌, None};

use rep_io::{
    Clock, Failed, Gate, LONGEST_LINE, LONGEST_TEXT, Lines, MemClock, MemSink, MemSource, Next,
    OpenGate, Sink, Source,
};
use std::alloc::{AllocError, Global};
use std::process::Abort;
use std::test::Fail;

fn source_of(
    alloc: Global,
    text: &[u8],
    size: usize,
    fails: &[u64],
) -> Result<MemSource, AllocError>
    requires { 0 < size }
{
    let mut pieces = Vec::new(alloc);
    for piece in text.chunks(size) {
        pieces.push(piece.to_vec(alloc)?)?;
    }
    Ok(MemSource::new(pieces, fails.to_vec(alloc)?))
}

/// Whether a line of these bytes came, ended by CR LF or not.
fn is_line(next: &Next, line: &[u8], ends_by_crlf: bool) -> bool {
    match next {
        Next::Line { bytes, crlf } => bytes.bytes() == line && *crlf == ends_by_crlf,
        Next::TooLong | Next::End | Next::SourceFault | Next::InputLimit => false,
    }
}

/// The next line, where a fault may come first, which is counted.
fn next_behind_a_fault(cutter: &mut Lines<MemSource>, faults: &mut u8) -> Next {
    let next = cutter.next();
    if matches!(next, Next::SourceFault) {
        *faults = faults.saturating_add(1);
        return cutter.next();
    }
    next
}

#[test]
fn a_fault_inside_a_line_loses_no_byte(rt: HostRuntime) -> Result<(), Fail> {
    for call in 0..8 {
        let mut cutter = Lines::new(source_of(rt.alloc(), b"ab\r\ncd\n", 1, &[call])?);
        let mut faults = 0u8;
        let first = next_behind_a_fault(&mut cutter, &mut faults);
        assert!(rt; is_line(&first, b"ab", true), "at call {call}");
        let second = next_behind_a_fault(&mut cutter, &mut faults);
        assert!(rt; is_line(&second, b"cd", false), "at call {call}");
        let end = next_behind_a_fault(&mut cutter, &mut faults);
        assert!(rt; matches!(end, Next::End), "at call {call}");
        assert_eq!(rt; faults, 1, "at call {call}");
    }
    Ok(())
}

#[test]
fn a_source_in_memory_gives_a_piece_at_most(rt: HostRuntime) -> Result<(), Fail> {
    let alloc = rt.alloc();
    let mut pieces = Vec::new(alloc);
    for piece in [&b""[..], b"abc", b"", b"d", b""] {
        pieces.push(piece.to_vec(alloc)?)?;
    }
    let mut source = MemSource::new(pieces, [2].to_vec(alloc)?);
    let mut buffer = [0; 2];
    assert_eq!(rt; source.read(&mut []), Ok(0));
    assert_eq!(rt; source.read(&mut buffer), Ok(2));
    assert_eq!(rt; &buffer[..], b"ab".as_slice());
    assert_eq!(rt; source.read(&mut buffer), Err(Failed));
    assert_eq!(rt; source.read(&mut buffer), Ok(1));
    assert_eq!(rt; buffer[0], b'c');
    assert_eq!(rt; source.read(&mut buffer), Ok(1));
    assert_eq!(rt; buffer[0], b'd');
    assert_eq!(rt; source.read(&mut buffer), Ok(0));
    assert_eq!(rt; source.read(&mut buffer), Ok(0));
    Ok(())
}

#[test]
fn a_sink_in_memory_takes_its_room(rt: HostRuntime) -> Result<(), Fail> {
    let mut sink = MemSink::new(rt.alloc(), 3, [1].to_vec(rt.alloc())?)?;
    assert_eq!(rt; sink.write(b"ab"), Ok(2));
    assert_eq!(rt; sink.write(b"cd"), Err(Failed));
    assert_eq!(rt; sink.write(b"cd"), Ok(1));
    assert_eq!(rt; sink.write(b""), Ok(0));
    assert_eq!(rt; sink.write(b"d"), Err(Failed));
    assert_eq!(rt; sink.bytes(), b"abc".as_slice());
    Ok(())
}

#[test]
fn a_clock_in_memory_repeats_its_last_reading(rt: HostRuntime) -> Result<(), Fail> {
    let mut clock = MemClock::new([840, 900].to_vec(rt.alloc())?, [1].to_vec(rt.alloc())?);
    for reading in [Ok(840), Err(Failed), Ok(900), Ok(900)] {
        assert_eq!(rt; clock.now(), reading);
    }
    OpenGate.arrive(1, 1);
    OpenGate.answered(1, 1);
    Ok(())
}

/// Makes lines of 511 bytes, one a read, without holding them.
#[derive(Drop)]
struct Endless {
    left: usize,
}

impl Source for Endless {
    ghost left = { λ _. None };

    ghost faults = { λ _. 0 };

    fn read(&mut self, into: &mut [u8]) -> Result<usize, Failed> {
        let count = into.len().min(LONGEST_LINE).min(self.left);
        let bytes = &mut into[..count];
        bytes.fill(b'x');
        if let Some(last) = bytes.last_mut() {
            *last = b'\n';
        }
        self.left -= count;
        Ok(count)
    }
}

#[test]
fn a_text_has_268435456_bytes_at_most(rt: HostRuntime) {
    for past in [0, 1] {
        let mut cutter = Lines::new(Endless {
            left: LONGEST_TEXT + past,
        });
        for _ in 0..LONGEST_TEXT / LONGEST_LINE {
            assert!(rt;
                matches!(
                    cutter.next(),
                    Next::Line {
                        bytes: _,
                        crlf: false
                    }
                )
            );
        }
        for _ in 0..2 {
            let next = cutter.next();
            if past == 0 {
                assert!(rt; matches!(next, Next::End));
            } else {
                assert!(rt; matches!(next, Next::InputLimit));
            }
        }
        let source = cutter.into_source();
        assert_eq!(rt; source.left, 0);
    }
}
