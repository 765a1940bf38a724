// A reader as a source, and a writer as a sink.
ghost use Rattle.std.specs.Prelude.{None, ◌≡◌};
ghost use Rattle.hudi_base.specs.Faults.{CountsFault};
ghost use Rattle.hudi_base.specs.Streams.{Sends, Takes};
ghost use Rattle.store_dir.specs.ExactCounts.{CountsOnlyFailure};

use hudi_base::{FaultCount, Got, Sent, Sink, Source};
use std::io::{Read, Write};
use std::marker::Model;

/// A reader, such as standard input. Contracts see its count of faults.
#[derive(Drop)]
pub struct StdinSource<T: Read> {
    reader: T,
    faults: FaultCount,
}

impl<T: Read> Model for StdinSource<T> {
    ghost use Rattle.std.specs.Prelude.{ℕ};

    ghost Value = { ℕ };

    ghost view = { λ source. source.faults };
}

impl<T: Read> StdinSource<T> {
    /// A reader that hasn't failed yet.
    pub fn new(reader: T) -> StdinSource<T>
        ensures { result ≡ 0 }
    {
        StdinSource {
            reader,
            faults: FaultCount::new(),
        }
    }
}

impl<T: Read> Source for StdinSource<T> {
    ghost state = { λ faults. record { left = None; faults = faults } };

    fn read(&mut self, buf: &mut [u8]) -> Got
        ensures answer { Takes None None result buf.new }
        ensures cause { CountsFault self.old self.new (result ≡ Got.Failed) }
        ensures count { CountsOnlyFailure self.old self.new (result ≡ Got.Failed) }
    {
        match self.reader.read(buf) {
            Ok(count) => Got::Took(count),
            Err(_) => {
                self.faults.raise();
                Got::Failed
            }
        }
    }
}

/// A writer, such as standard output. Contracts see its count of faults.
#[derive(Drop)]
pub struct StdoutSink<T: Write> {
    writer: T,
    faults: FaultCount,
}

impl<T: Write> Model for StdoutSink<T> {
    ghost use Rattle.std.specs.Prelude.{ℕ};

    ghost Value = { ℕ };

    ghost view = { λ sink. sink.faults };
}

impl<T: Write> StdoutSink<T> {
    /// A writer that hasn't failed yet.
    pub fn new(writer: T) -> StdoutSink<T>
        ensures { result ≡ 0 }
    {
        StdoutSink {
            writer,
            faults: FaultCount::new(),
        }
    }
}

impl<T: Write> Sink for StdoutSink<T> {
    ghost state = { λ faults. record { written = None; faults = faults } };

    // A writer that takes no byte of a piece that isn't empty has failed.
    fn write(&mut self, bytes: &[u8]) -> Sent
        ensures answer { Sends None None result bytes.now }
        ensures cause { CountsFault self.old self.new (result ≡ Sent.Failed) }
        ensures count { CountsOnlyFailure self.old self.new (result ≡ Sent.Failed) }
    {
        match self.writer.write(bytes) {
            Ok(count) if count > 0 || bytes.is_empty() => Sent::Took(count),
            _ => {
                self.faults.raise();
                Sent::Failed
            }
        }
    }
}
