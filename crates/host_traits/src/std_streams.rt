// Adapters over the readers and writers of std.
ghost use Rattle.std.specs.Prelude.{◌≡◌, None};

use crate::{ReadAnswer, Sink, Source, WriteAnswer};
use std::io::{Read, Write};

/// A source over any reader. It tells no content, and counts each `Err` as a fault.
#[derive(Drop)]
pub struct StreamSource<R: Read + Drop> {
    reader: R,
    faults: u64,
}

impl<R: Read + Drop> StreamSource<R> {
    pub fn new(reader: R) -> Self
        ensures { ⟦<StreamSource<R> as Source>⟧.fault_count result ≡ 0 }
    {
        StreamSource { reader, faults: 0 }
    }
}

impl<R: Read + Drop> Source for StreamSource<R> {
    ghost left = { λ s. None };

    ghost fault_count = { λ s. s.faults };

    fn read(&mut self, buf: &mut [u8]) -> ReadAnswer {
        match self.reader.read(buf) {
            Ok(0) => ReadAnswer::End,
            Ok(n) => ReadAnswer::Got(n),
            Err(_) => {
                self.faults = self.faults.saturating_add(1);
                ReadAnswer::Failed
            }
        }
    }

    fn faults(&self) -> u64 {
        self.faults
    }
}

/// A sink over any writer. It tells no content, and counts each `Err` and each write that took nothing as a fault.
#[derive(Drop)]
pub struct StreamSink<W: Write + Drop> {
    writer: W,
    faults: u64,
}

impl<W: Write + Drop> StreamSink<W> {
    pub fn new(writer: W) -> Self
        ensures { ⟦<StreamSink<W> as Sink>⟧.fault_count result ≡ 0 }
    {
        StreamSink { writer, faults: 0 }
    }
}

impl<W: Write + Drop> Sink for StreamSink<W> {
    ghost written = { λ s. None };

    ghost fault_count = { λ s. s.faults };

    fn write(&mut self, piece: &[u8]) -> WriteAnswer {
        match self.writer.write(piece) {
            Ok(n) if n > 0 => WriteAnswer::Put(n),
            _ => {
                self.faults = self.faults.saturating_add(1);
                WriteAnswer::Failed
            }
        }
    }

    fn faults(&self) -> u64 {
        self.faults
    }
}
