//! A sink in memory that takes a page byte by byte.
ghost use Rattle.std.specs.Prelude.{◌≡◌};

use desk_outside::{Failed, Sink};

// A sink that takes one byte at each write.
#[derive(Drop)]
pub(super) struct ByteSink<O: Sink> {
    sink: O,
}

impl<O: Sink> ByteSink<O> {
    // This sink, which now takes one byte at each write.
    pub(super) fn over(sink: O) -> ByteSink<O>
        ensures { result.sink ≡ sink }
    {
        ByteSink { sink }
    }

    // The sink.
    pub(super) fn sink(&self) -> &O
        ensures { result.now ≡ self.now.sink }
    {
        &self.sink
    }
}

impl<O: Sink> Sink for ByteSink<O> {
    ghost written = { λ b. O.written b.sink };

    ghost faults = { λ b. O.faults b.sink };

    fn write(&mut self, bytes: &[u8]) -> Result<usize, Failed> {
        match bytes {
            [first, ..] => self.sink.write(&[*first]),
            [] => self.sink.write(bytes),
        }
    }
}
