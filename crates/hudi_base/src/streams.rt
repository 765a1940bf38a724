// Bytes that come in, and bytes that go out.
ghost use Rattle.std.specs.Prelude.{◌≡◌};
ghost use Rattle.hudi_base.specs.Faults.{CountsFault};
ghost use Rattle.hudi_base.specs.Streams.{SinkState, SourceState, Sends, Takes};

/// What a read of a source gave: so many bytes, at the beginning of the buffer, or a failure.
#[derive(Clone, Copy, Debug, PartialEq, Eq)]
pub enum Got {
    Took(usize),
    Failed,
}

/// What became of a write to a sink: so many of the piece's first bytes were taken, or it failed.
#[derive(Clone, Copy, Debug, PartialEq, Eq)]
pub enum Sent {
    Took(usize),
    Failed,
}

/// Where bytes come from.
pub trait Source {
    /// What is seen of it: the bytes that are left, where it tells them, and its count of faults.
    ghost state: { Self → SourceState };

    /// Reads into the buffer. No byte for a buffer that isn't empty is the end. A failure takes no byte.
    fn read(&mut self, buf: &mut [u8]) -> Got
        ensures answer { Takes (state self.old).left (state self.new).left result buf.new }
        ensures cause { CountsFault (state self.old).faults (state self.new).faults (result ≡ Got.Failed) };
}

/// Where bytes go.
pub trait Sink {
    /// What is seen of it: the bytes that were written, where it tells them, and its count of faults.
    ghost state: { Self → SinkState };

    /// Writes the first bytes of the piece, at least one where there is one. A failure writes none.
    fn write(&mut self, bytes: &[u8]) -> Sent
        ensures answer { Sends (state self.old).written (state self.new).written result bytes.now }
        ensures cause { CountsFault (state self.old).faults (state self.new).faults (result ≡ Sent.Failed) };
}
