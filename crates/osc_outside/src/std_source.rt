// A source over a reader of std. It tells no bytes.
ghost use Rattle.std.specs.Prelude.{◌≡◌, None, MatchResult};
ghost use Rattle.std.specs.Io.KnownBytes.{ReadConsumes as StreamConsumes};
ghost use Rattle.osc_outside.specs.Faults.{HasCause, risen};
ghost use Rattle.osc_outside.specs.Calls.{ReadsAtMost, ReadConsumes};
ghost use Rattle.osc_outside.specs.Streams.{source_stream, source_faults};

use super::outside::{Failed, Source};
use std::io::Read;

/// A source over a reader of std, such as the standard input.
#[derive(Drop)]
pub struct StdSource<R> {
    stream: R,
    faults: u64,
}

impl<R> StdSource<R> {
    /// A source over the stream, with no fault yet.
    pub fn new(stream: R) -> StdSource<R>
        ensures stream { source_stream result ≡ stream }
        ensures faults { source_faults result ≡ 0 }
    {
        StdSource { stream, faults: 0 }
    }
}

impl<R: Read> Source for StdSource<R> {
    ghost left = { λ _. None };

    ghost faults = { λ source. source_faults source };

    /// One read of the stream. Each error of the stream is a fault, also an interrupted read.
    fn read(&mut self, into: &mut [u8]) -> Result<usize, Failed>
        ensures bound { ReadsAtMost result into.new }
        ensures bytes { ReadConsumes None None result into.new }
        ensures cause { HasCause (source_faults self.old) (source_faults self.new) result }

        // The count is that of the calls that failed.
        ensures count { MatchResult result
            (λ _. source_faults self.new ≡ source_faults self.old)
            (λ _. source_faults self.new ≡ risen (source_faults self.old)) }

        // The bytes are the stream's, where the stream says which bytes it has.
        ensures stream { StreamConsumes (R.remaining (source_stream self.old))
            (R.remaining (source_stream self.new)) result into.new }
    {
        match self.stream.read(into) {
            Ok(count) => Ok(count),
            Err(_) => {
                self.faults = self.faults.saturating_add(1);
                Err(Failed)
            }
        }
    }
}
