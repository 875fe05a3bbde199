// A sink over a writer of std. It tells no bytes.
ghost use Rattle.std.specs.Prelude.{◌≡◌, None, MatchResult};
ghost use Rattle.std.specs.Io.KnownBytes.{WriteAppends as StreamAppends};
ghost use Rattle.osc_outside.specs.Faults.{HasCause, risen};
ghost use Rattle.osc_outside.specs.Calls.{WritesAtMost, TakesSome, WriteAppends};
ghost use Rattle.osc_outside.specs.Streams.{sink_stream, sink_faults};

use super::outside::{Failed, Sink};
use std::io::Write;

/// A sink over a writer of std, such as the standard output. It flushes nothing: a writer that
/// keeps bytes back is for its owner to flush.
#[derive(Drop)]
pub struct StdSink<W> {
    stream: W,
    faults: u64,
}

impl<W> StdSink<W> {
    /// A sink over the stream, with no fault yet.
    pub fn new(stream: W) -> StdSink<W>
        ensures stream { sink_stream result ≡ stream }
        ensures faults { sink_faults result ≡ 0 }
    {
        StdSink { stream, faults: 0 }
    }
}

impl<W: Write> Sink for StdSink<W> {
    ghost holds = { λ _. None };

    ghost faults = { λ sink. sink_faults sink };

    /// One write to the stream. Each error of the stream is a fault, and so is a write that takes
    /// nothing of a piece that is not empty.
    fn write(&mut self, piece: &[u8]) -> Result<usize, Failed>
        ensures bound { WritesAtMost result piece.now }
        ensures some { TakesSome result piece.now }
        ensures bytes { WriteAppends None None result piece.now }
        ensures cause { HasCause (sink_faults self.old) (sink_faults self.new) result }

        // The count is that of the calls that failed.
        ensures count { MatchResult result
            (λ _. sink_faults self.new ≡ sink_faults self.old)
            (λ _. sink_faults self.new ≡ risen (sink_faults self.old)) }

        // The bytes went to the stream, where the stream says which bytes it holds.
        ensures stream { StreamAppends (W.contents (sink_stream self.old))
            (W.contents (sink_stream self.new)) result piece.now }
    {
        let written = self.stream.write(piece);
        match written {
            Ok(count) if count > 0 || piece.is_empty() => Ok(count),
            Ok(_) | Err(_) => {
                self.faults = self.faults.saturating_add(1);
                Err(Failed)
            }
        }
    }
}
