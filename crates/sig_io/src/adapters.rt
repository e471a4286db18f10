ghost use Rattle.std.specs.Prelude.{◌≡◌};

use crate::traits::{Failed, Sink, Source};
use std::io::{Read, Write};

/// A source over any reader, which counts the reads that failed.
#[derive(Debug, Drop)]
pub struct FromReader<R> {
    reader: R,
    faults: u64,
}

impl<R: Read> FromReader<R> {
    pub fn new(reader: R) -> Self
        ensures left { ⟦<FromReader<R> as Source>⟧.left result ≡ R.remaining reader }
        ensures fresh { ⟦<FromReader<R> as Source>⟧.faults result ≡ 0 }
    {
        FromReader { reader, faults: 0 }
    }
}

impl<R: Read> Source for FromReader<R> {
    ghost left = { λ source. R.remaining source.reader };

    ghost faults = { λ source. source.faults };

    fn read(&mut self, buf: &mut [u8]) -> Result<usize, Failed> {
        match self.reader.read(buf) {
            Ok(count) => Ok(count),
            Err(_) => {
                self.faults = self.faults.saturating_add(1);
                Err(Failed)
            }
        }
    }
}

/// A sink over any writer, which counts the writes that failed. A writer that takes nothing of some
/// bytes has failed too.
#[derive(Debug, Drop)]
pub struct ToWriter<W> {
    writer: W,
    faults: u64,
}

impl<W: Write> ToWriter<W> {
    pub fn new(writer: W) -> Self
        ensures written { ⟦<ToWriter<W> as Sink>⟧.written result ≡ W.contents writer }
        ensures fresh { ⟦<ToWriter<W> as Sink>⟧.faults result ≡ 0 }
    {
        ToWriter { writer, faults: 0 }
    }
}

impl<W: Write> Sink for ToWriter<W> {
    ghost written = { λ sink. W.contents sink.writer };

    ghost faults = { λ sink. sink.faults };

    fn write(&mut self, buf: &[u8]) -> Result<usize, Failed> {
        match self.writer.write(buf) {
            Ok(count) if count > 0 || buf.is_empty() => Ok(count),
            _ => {
                self.faults = self.faults.saturating_add(1);
                Err(Failed)
            }
        }
    }
}
