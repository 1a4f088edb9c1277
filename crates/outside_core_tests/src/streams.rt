// The outside as generic callers see it, over each of its forms.
ghost use Rattle.std.specs.Prelude.{◌≡◌, [], Err, IfOk, IfSome, OnOk};
ghost use Rattle.outside_core.specs.Fault.{Rose};
ghost use Rattle.outside_core.specs.Told.{append_told, prepend_told};

use outside_core::{
    Failed, MemorySink, MemorySource, OutOfMemory, Sink, Source, SteadySink, SteadySource,
    StreamSink, StreamSource, write_whole,
};
use std::alloc::Global;
use std::io;
use std::io::{ErrorKind, Read, Write};
use std::test::Fail;

// Why a reading stopped before the end.
#[derive(Clone, Copy, Debug, PartialEq, Eq)]
enum Stop {
    Failed,
    Memory,
    Endless,
}

// Reads a source to its end, three octets a call.
fn read_to_end<S: Source>(alloc: Global, source: &mut S) -> Result<Vec<u8>, Stop>
    ensures taken { IfOk result (λ input.
        S.taken source.new ≡ append_told (S.taken source.old) input.items) }
    ensures left { IfOk result (λ input.
        S.left source.old ≡ prepend_told input.items (S.left source.new)) }
    ensures end { OnOk result (IfSome (S.left source.new) (λ rest. rest ≡ [])) }
    ensures unfailing { OnOk result (S.faults source.new ≡ S.faults source.old) }
    ensures failed { result ≡ Err Stop.Failed
        → Rose (S.faults source.old) (S.faults source.new) }
{
    let mut input = Vec::new(alloc);
    let mut buffer = [0; 3];
    'pieces: for _ in 0..u64::MAX {
        let count = match source.read(&mut buffer) {
            Ok(count) => count,
            Err(Failed) => return Err(Stop::Failed),
        };
        if count == 0 {
            return Ok(input);
        }
        if input.extend_from_slice(&buffer[..count]).is_err() {
            return Err(Stop::Memory);
        }
    }
    Err(Stop::Endless)
}

// A stream whose calls all fail.
#[derive(Debug, Drop)]
struct Broken;

impl Read for Broken {
    fn read(&mut self, _into: &mut [u8]) -> io::Result<usize> {
        Err(io::Error::from(ErrorKind::TimedOut))
    }
}

impl Write for Broken {
    fn write(&mut self, _piece: &[u8]) -> io::Result<usize> {
        Err(io::Error::from(ErrorKind::TimedOut))
    }

    fn flush(&mut self) -> io::Result<()> {
        Ok(())
    }
}

// Whether the source is read to its end, and gives this.
fn gives<S: Source>(alloc: Global, source: &mut S, contents: &[u8]) -> bool {
    match read_to_end(alloc, source) {
        Ok(input) => input.as_slice() == contents,
        Err(_) => false,
    }
}

// Why a reading of the source stops before its end.
fn stop_of<S: Source>(alloc: Global, source: &mut S) -> Option<Stop> {
    read_to_end(alloc, source).err()
}

// A source of this, of whose calls the first and the third fail.
fn fitful_source(alloc: Global, contents: &[u8]) -> Result<MemorySource, OutOfMemory> {
    let failing = vec![in alloc; 1, 3]?;
    Ok(MemorySource::of(Vec::from_slice(alloc, contents)?, failing))
}

// Whether the next call gives the three octets and leaves what lies behind them.
fn gives_three(source: &mut MemorySource, octets: &[u8; 3]) -> bool {
    let mut buffer = [7; 4];
    let found = source.read(&mut buffer[..3]);
    let [first, second, third, last] = buffer;
    found == Ok(3) && [first, second, third] == *octets && last == 7
}

#[test]
fn a_source_fails_where_it_is_told_and_loses_nothing(rt: HostRuntime) -> Result<(), Fail> {
    let alloc = rt.alloc();
    let mut source = fitful_source(alloc, b"a zone")?;
    assert!(rt; stop_of(alloc, &mut source) == Some(Stop::Failed));

    // The second call gives three octets, and the third fails.
    assert!(rt; gives_three(&mut source, b"a z"));
    assert!(rt; source.read(&mut [7; 4]) == Err(Failed));
    assert!(rt; gives(alloc, &mut source, b"one"));
    Ok(())
}

// The first of the texts that a steady source of it doesn't give.
fn given_otherwise<'a>(alloc: Global, texts: &[&'a [u8]]) -> Result<Option<&'a [u8]>, OutOfMemory> {
    for text in texts {
        let mut source = SteadySource::of(Vec::from_slice(alloc, text)?);
        if !gives(alloc, &mut source, text) {
            return Ok(Some(text));
        }
    }
    Ok(None)
}

const TEXTS: [&[u8]; 4] = [b"", b"a", b"abc", b"a zone"];

#[test]
fn steady_forms_never_fail(rt: HostRuntime) -> Result<(), Fail> {
    let wrong = given_otherwise(rt.alloc(), &TEXTS)?;
    assert!(rt; wrong.is_none(), "{wrong:?}");
    assert!(rt; SteadySink::new().write(b"a zone") == Ok(6));
    assert!(rt; write_whole(&mut SteadySink::new(), b"a zone") == Ok(()));
    Ok(())
}

// A sink with room for six octets, of whose calls the second fails.
fn small_sink(alloc: Global) -> Result<MemorySink, OutOfMemory> {
    let failing = vec![in alloc; 2]?;
    MemorySink::with_room(alloc, 6, failing)
}

// What is written in turn, the answers, and what is written then.
const CALLS: [(&[u8], Result<usize, Failed>, &[u8]); 6] = [
    (b"a z", Ok(3), b"a z"),
    // It is the second call.
    (b"on", Err(Failed), b"a z"),
    (b"on", Ok(2), b"a zon"),
    // There is room for one octet.
    (b"es", Err(Failed), b"a zon"),
    (b"e", Ok(1), b"a zone"),
    (b"s", Err(Failed), b"a zone"),
];

// The first call that is answered otherwise, or after which something else is written, and its answer.
fn written_otherwise(
    sink: &mut MemorySink,
    calls: &[(&[u8], Result<usize, Failed>, &[u8])],
) -> Option<(usize, Result<usize, Failed>)> {
    for (i, (piece, answer, written)) in calls.iter().enumerate() {
        if piece.is_empty() {
            continue;
        }
        let found = sink.write(piece);
        if found != *answer || sink.written() != *written {
            return Some((i, found));
        }
    }
    None
}

#[test]
fn a_sink_fails_in_mid_stream_and_out_of_room(rt: HostRuntime) -> Result<(), Fail> {
    let alloc = rt.alloc();
    let wrong = written_otherwise(&mut small_sink(alloc)?, &CALLS);
    assert!(rt; wrong.is_none(), "{wrong:?}");
    Ok(())
}

// A stream that takes one octet a call.
#[derive(Debug, Drop)]
struct Slow {
    taken: Vec<u8>,
}

impl Write for Slow {
    fn write(&mut self, piece: &[u8]) -> io::Result<usize> {
        match self
            .taken
            .extend_from_slice(piece.get(..1).unwrap_or(piece))
        {
            Ok(()) => Ok(piece.len().min(1)),
            Err(_) => Err(io::Error::from(ErrorKind::OutOfMemory)),
        }
    }

    fn flush(&mut self) -> io::Result<()> {
        Ok(())
    }
}

#[test]
fn octets_are_written_whole_in_as_many_calls_as_it_takes(rt: HostRuntime) {
    let mut slow = Slow {
        taken: Vec::new(rt.alloc()),
    };
    let whole = write_whole(&mut StreamSink::over(&mut slow), b"a zone");
    assert!(rt; whole == Ok(()) && slow.taken.as_slice() == b"a zone".as_slice());
}

#[test]
fn octets_are_written_whole_or_the_sink_fails(rt: HostRuntime) -> Result<(), Fail> {
    let mut sink = small_sink(rt.alloc())?;
    let mut told = [Ok(()); 3];
    told[0] = write_whole(&mut sink, b"a zone");
    told[1] = write_whole(&mut sink, b"");
    told[2] = write_whole(&mut sink, b"s");
    assert!(rt; told == [Ok(()), Ok(()), Err(Failed)], "{told:?}");
    assert!(rt; sink.written() == b"a zone".as_slice());
    Ok(())
}

// Reads octets as a stream that tells them.
fn read_as_stream(alloc: Global, octets: &[u8]) -> Result<Vec<u8>, Stop>
    ensures { IfOk result (λ input. input.items ≡ octets.now) }
{
    let mut source = StreamSource::telling(octets);
    read_to_end(alloc, &mut source)
}

// Writes octets to a stream that tells them.
fn written_as_stream(alloc: Global, octets: &[u8]) -> Result<Vec<u8>, Failed>
    ensures { IfOk result (λ written. written.items ≡ octets.now) }
{
    let mut sink = StreamSink::telling(Vec::new(alloc));
    write_whole(&mut sink, octets)?;
    Ok(sink.into_inner())
}

// Whether both forms of a source give this, and both forms of a sink take it.
fn passes(alloc: Global, text: &[u8]) -> bool {
    let mut written = Vec::new(alloc);
    gives(alloc, &mut StreamSource::over(text), text)
        && read_as_stream(alloc, text).is_ok()
        && write_whole(&mut StreamSink::over(&mut written), text) == Ok(())
        && written.as_slice() == text
        && written_as_stream(alloc, text).is_ok()
}

#[test]
fn streams_are_read_and_written(rt: HostRuntime) {
    let alloc = rt.alloc();
    assert!(rt; passes(alloc, b"a zone"));
    assert!(rt; stop_of(alloc, &mut StreamSource::over(Broken)) == Some(Stop::Failed));
    assert!(rt; write_whole(&mut StreamSink::over(Broken), b"a zone") == Err(Failed));
}

// A slice takes what it has room for, and then 0 octets, which is a failure.
#[test]
fn a_slice_takes_what_it_has_room_for(rt: HostRuntime) {
    let mut room = [0; 4];
    let mut sink = StreamSink::over(room.as_mut_slice());
    let told = [sink.write(b"a z"), sink.write(b"one"), sink.write(b"ne")];
    assert!(rt; told == [Ok(3), Ok(1), Err(Failed)], "{told:?}");
}
