ghost use Rattle.std.specs.Prelude.{◌≡◌, ◌≤◌, [], length, take, None, IsSome, IsTrue, IfSome, IfOk, OnErr};
ghost use Rattle.std.specs.Io.KnownBytes.{ReadConsumes, WriteAppends};
ghost use Rattle.outside_core.specs.Fault.{next_count, HasCause};
ghost use Rattle.outside_core.specs.Told.{append_told, prepend_told};

use crate::{Failed, Sink, Source};
use std::io::{Read, Write};

/// A stream of std as a source. It tells the octets that it has left where it was made by `telling`,
/// and never those that it gave. Its count of faults stays at 2^64 - 1 once it is there.
///
/// When a read fails is left open, since nothing in std says so: it is where the stream's read
/// fails, also where a signal interrupted that.
#[derive(Debug, Drop)]
pub struct StreamSource<R: Read> {
    stream: R,
    tells: bool,
    faults: u64,
    ghost known: { IsTrue tells → IsSome (R.remaining stream) },
}

impl<R: Read> StreamSource<R> {
    ghost use Rattle.outside_core.specs.Stream.{source_stream, source_left, source_faults};

    /// A source that tells nothing of its octets.
    pub fn over(stream: R) -> StreamSource<R>
        ensures stream { source_stream result ≡ stream }
        ensures left { source_left result ≡ None }
        ensures faults { source_faults result ≡ 0 }
    {
        StreamSource {
            stream,
            tells: false,
            faults: 0,
        }
    }

    /// A source that tells the octets that it has left, since std knows what the stream has.
    pub fn telling(stream: R) -> StreamSource<R>
        requires { IsSome (R.remaining stream) }
        ensures stream { source_stream result ≡ stream }
        ensures left { source_left result ≡ R.remaining stream }
        ensures faults { source_faults result ≡ 0 }
    {
        StreamSource {
            stream,
            tells: true,
            faults: 0,
        }
    }
}

impl<R: Read> Source for StreamSource<R> {
    ghost use Rattle.outside_core.specs.Stream.{source_stream, source_left, source_faults};

    ghost taken = { λ _. None };

    ghost left = { source_left };

    ghost faults = { source_faults };

    fn read(&mut self, into: &mut [u8]) -> Result<usize, Failed>
        ensures within { IfOk result (λ n. n ≤ length into.old) }
        ensures left { IfOk result (λ n.
            source_left self.old ≡ prepend_told (take n into.new) (source_left self.new)) }
        ensures end { IfOk result (λ n. n ≡ 0 → 1 ≤ length into.old
            → IfSome (source_left self.new) (λ after. after ≡ [])) }
        ensures failed_left { OnErr result (source_left self.new ≡ source_left self.old) }
        ensures cause { HasCause (source_faults self.old) (source_faults self.new) result }

        // Beyond the trait: what it gives is what the stream loses, where std knows that.
        ensures counted { OnErr result (
            source_faults self.new ≡ next_count (source_faults self.old)) }
        ensures passed { ReadConsumes
            (R.remaining (source_stream self.old)) (R.remaining (source_stream self.new))
            result into.new }
    {
        match self.stream.read(into) {
            Ok(count) => Ok(count),
            Err(_) => Err(Failed::counted(&mut self.faults)),
        }
    }
}

/// A stream of std as a sink. It tells the octets written where it was made by `telling`: those that
/// the stream holds. Its count of faults stays at 2^64 - 1 once it is there.
///
/// When a write fails is left open, since nothing in std says so: it is where the stream's write
/// fails, also where a signal interrupted that, and where it takes no octet.
///
/// Nothing here flushes. The octets reach the system at once where the stream keeps none back, as
/// std's standard output and files do. Lend a stream with a buffer as `&mut`, and flush it
/// afterwards: one that is dropped flushes too, and loses the failure of that.
#[derive(Debug, Drop)]
pub struct StreamSink<W: Write> {
    stream: W,
    tells: bool,
    faults: u64,
    ghost known: { IsTrue tells → IsSome (W.contents stream) },
}

impl<W: Write> StreamSink<W> {
    ghost use Rattle.outside_core.specs.Stream.{sink_stream, sink_written, sink_faults};

    /// A sink that tells nothing of its octets.
    pub fn over(stream: W) -> StreamSink<W>
        ensures stream { sink_stream result ≡ stream }
        ensures written { sink_written result ≡ None }
        ensures faults { sink_faults result ≡ 0 }
    {
        StreamSink {
            stream,
            tells: false,
            faults: 0,
        }
    }

    /// A sink that tells the octets written, since std knows what the stream holds. Those that it
    /// holds already are told as written too.
    pub fn telling(stream: W) -> StreamSink<W>
        requires { IsSome (W.contents stream) }
        ensures stream { sink_stream result ≡ stream }
        ensures written { sink_written result ≡ W.contents stream }
        ensures faults { sink_faults result ≡ 0 }
    {
        StreamSink {
            stream,
            tells: true,
            faults: 0,
        }
    }

    /// The stream. It isn't flushed.
    pub fn into_inner(self) -> W
        ensures { result ≡ sink_stream self }
    {
        let StreamSink { stream, .. } = self;
        stream
    }
}

impl<W: Write> Sink for StreamSink<W> {
    ghost use Rattle.outside_core.specs.Stream.{sink_stream, sink_written, sink_faults};

    ghost written = { sink_written };

    ghost faults = { sink_faults };

    fn write(&mut self, piece: &[u8]) -> Result<usize, Failed>
        requires { 1 ≤ length piece.now }
        ensures some { IfOk result (λ n. 1 ≤ n) }
        ensures within { IfOk result (λ n. n ≤ length piece.now) }
        ensures written { IfOk result (λ n.
            sink_written self.new ≡ append_told (sink_written self.old) (take n piece.now)) }
        ensures failed_written { OnErr result (sink_written self.new ≡ sink_written self.old) }
        ensures cause { HasCause (sink_faults self.old) (sink_faults self.new) result }

        // Beyond the trait: what it takes is what the stream gains, where std knows that.
        ensures counted { OnErr result (sink_faults self.new
            ≡ next_count (sink_faults self.old)) }
        ensures passed { WriteAppends
            (W.contents (sink_stream self.old)) (W.contents (sink_stream self.new))
            result piece.now }
    {
        match self.stream.write(piece) {
            Ok(count) if count > 0 => Ok(count),
            _ => Err(Failed::counted(&mut self.faults)),
        }
    }
}
