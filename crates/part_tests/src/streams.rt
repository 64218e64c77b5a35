//! Sources and sinks, of `wm_io`.
ghost use Rattle.std.specs.Prelude.{◌<◌, ◌≤◌, IfOk};

use std::alloc::{AllocError, Global};
use std::io::{self, ErrorKind, Read, Write};
use std::process::Abort;
use std::test::Fail;
use wm_io::{
    Got, HasText, MemorySink, MemorySource, Pending, Put, Sink, Source, StdSink, StdSource,
    WriteFault,
};

/// A source gives these answers to reads of two bytes, and these bytes in all.
fn expect_reads<S: Source>(
    rt: &impl Abort,
    alloc: Global,
    source: &mut S,
    answers: &[Got],
    bytes: &[u8],
) -> Result<(), Fail> {
    let mut given = Vec::new(alloc);
    for answer in answers {
        let mut room = [0; 2];
        let got = source.read(&mut room);
        assert_eq!(rt; got, *answer);
        if let Got::Some(count) = got {
            given.extend_from_slice(&room[..count])?;
        }
    }
    assert_eq!(rt; given.as_slice(), bytes);
    Ok(())
}

/// A sink gives these answers to writes of `abc`.
fn expect_writes<W: Sink>(rt: &impl Abort, sink: &mut W, answers: &[Put]) {
    for answer in answers {
        assert_eq!(rt; sink.write(b"abc"), *answer);
    }
}

fn source(
    alloc: Global,
    bytes: &[u8],
    cut: usize,
    failing: &[u32],
) -> Result<MemorySource, AllocError>
    requires { 0 < cut }
{
    let failing = failing.to_vec(alloc)?;
    Ok(MemorySource::new(bytes.to_vec(alloc)?, cut, failing))
}

/// A line's text, for which memory is refused, or isn't.
#[derive(Drop)]
struct Line<'a> {
    bytes: &'a [u8],
    refused: bool,
}

impl<'a> HasText for Line<'a> {
    ghost text = { λ line. line.bytes.now };

    fn text(&self, alloc: Global) -> Result<Vec<u8>, AllocError> {
        if self.refused {
            return Err(AllocError);
        }
        self.bytes.to_vec(alloc)
    }
}

fn some_line(refused: bool) -> Line<'static> {
    Line {
        bytes: b"abc".as_slice(),
        refused,
    }
}

/// A reader and writer that is interrupted, then moves two bytes, fails, and moves nothing. Its
/// flush fails from then on.
#[derive(Drop)]
struct Troubled {
    calls: u8,
}

impl Troubled {
    fn answer(&mut self) -> io::Result<usize>
        ensures { IfOk result (λ count. count ≤ 2) }
    {
        self.calls = self.calls.saturating_add(1);
        match self.calls {
            1 => Err(ErrorKind::Interrupted.into()),
            2 => Ok(2),
            3 => Err(ErrorKind::Other.into()),
            4 => Ok(0),
            _ => Ok(1),
        }
    }
}

impl Read for Troubled {
    fn read(&mut self, buf: &mut [u8]) -> io::Result<usize> {
        Ok(self.answer()?.min(buf.len()))
    }
}

impl Write for Troubled {
    fn write(&mut self, buf: &[u8]) -> io::Result<usize> {
        Ok(self.answer()?.min(buf.len()))
    }

    fn flush(&mut self) -> io::Result<()> {
        if self.calls > 4 {
            return Err(ErrorKind::Other.into());
        }
        Ok(())
    }
}

#[test]
fn a_source_cuts_fails_and_ends(rt: HostRuntime) -> Result<(), Fail> {
    let alloc = rt.alloc();
    let (one, two) = (Got::Some(1), Got::Some(2));
    let (end, failed) = (Got::End, Got::Failed);
    let mut small = source(alloc, b"abc", 1, &[])?;
    expect_reads(&rt, alloc, &mut small, &[one, one, one, end, end], b"abc")?;
    let mut large = source(alloc, b"abc", 9, &[1, 2, 5])?;
    let answers = [failed, failed, two, one, failed, end];
    expect_reads(&rt, alloc, &mut large, &answers, b"abc")?;
    expect_reads(&rt, alloc, &mut source(alloc, b"", 1, &[])?, &[end], b"")?;
    let mut slice = StdSource::new(b"abc".as_slice());
    expect_reads(&rt, alloc, &mut slice, &[two, one, end, end], b"abc")?;
    let mut troubled = StdSource::new(Troubled { calls: 0 });
    let answers = [two, failed, end, one];
    expect_reads(&rt, alloc, &mut troubled, &answers, &[0, 0, 0])
}

#[test]
fn a_sink_cuts_and_fails(rt: HostRuntime) -> Result<(), Fail> {
    let alloc = rt.alloc();
    let (one, two, three) = (Put::Took(1), Put::Took(2), Put::Took(3));
    let failed = Put::Failed;
    let mut small = MemorySink::new(1, Vec::new(alloc));
    expect_writes(&rt, &mut small, &[one, one]);
    assert_eq!(rt; small.bytes(), b"aa".as_slice());
    let mut large = MemorySink::new(9, [1, 2, 4].to_vec(alloc)?);
    expect_writes(&rt, &mut large, &[failed, failed, three, failed, three]);
    assert_eq!(rt; large.bytes(), b"abcabc".as_slice());
    let mut held = Vec::new(alloc);
    let mut sink = StdSink::new(&mut held);
    expect_writes(&rt, &mut sink, &[three, three]);
    assert_eq!(rt; held.as_slice(), b"abcabc".as_slice());
    let mut troubled = StdSink::new(Troubled { calls: 0 });
    expect_writes(&rt, &mut troubled, &[two, failed, failed, failed]);
    Ok(())
}

/// A text that found no memory is owed to the sink, and is made again in the end.
#[test]
fn a_refused_text_is_made_again_in_the_end(rt: HostRuntime) -> Result<(), Fail> {
    let alloc = rt.alloc();
    let mut sink = MemorySink::new(9, Vec::new(alloc));
    let mut pending = Pending::new(alloc)?;
    let refused = some_line(true);
    assert_eq!(rt;
        pending.tell(alloc, &refused, &mut sink),
        Err(WriteFault::Memory)
    );
    assert_eq!(rt; pending.finish(alloc, &some_line(false), &mut sink), Ok(()));
    assert_eq!(rt; sink.bytes(), b"abc".as_slice());
    Ok(())
}
