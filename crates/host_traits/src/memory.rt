// A source and a sink in memory.
ghost use Rattle.std.specs.Prelude.{◌≡◌, ◌≤◌, ◌<◌, Some, drop, length};

use crate::{ReadAnswer, Sink, Source, WriteAnswer};

/// A source of the bytes that it was made with, so many at a time at the most. It keeps a list of its calls that fail,
/// counted from 0.
#[derive(Drop)]
pub struct MemorySource {
    bytes: Vec<u8>,
    at: usize,
    piece: usize,
    failing: Vec<u64>,
    calls: u64,
    faults: u64,
    ghost within: { at ≤ length bytes.items },
    ghost some: { 0 < piece },
}

impl MemorySource {
    ghost use Rattle.std.specs.Prelude.{◌≡◌, ◌<◌, Some};

    /// A source of these bytes, which hands over at most `piece` bytes at a time. The calls of the numbers in `failing`
    /// fail.
    pub fn new(bytes: Vec<u8>, piece: usize, failing: Vec<u64>) -> Self
        requires { 0 < piece }
        ensures left { ⟦<MemorySource as Source>⟧.left result ≡ Some bytes.items }
        ensures no_fault { ⟦<MemorySource as Source>⟧.fault_count result ≡ 0 }
    {
        MemorySource {
            bytes,
            at: 0,
            piece,
            failing,
            calls: 0,
            faults: 0,
        }
    }
}

impl Source for MemorySource {
    ghost left = { λ s. Some (drop s.at s.bytes.items) };

    ghost fault_count = { λ s. s.faults };

    #[tactic(auto, using(crate::proofs::Handed::drop_handed))]
    fn read(&mut self, buf: &mut [u8]) -> ReadAnswer {
        let call = self.calls;
        self.calls = call.saturating_add(1);
        if self.failing.contains(&call) {
            self.faults = self.faults.saturating_add(1);
            return ReadAnswer::Failed;
        }
        let n = buf.len().min(self.piece).min(self.bytes.len() - self.at);
        if n == 0 {
            return ReadAnswer::End;
        }
        buf[..n].copy_from_slice(&self.bytes[self.at..self.at + n]);
        self.at += n;
        ReadAnswer::Got(n)
    }

    fn faults(&self) -> u64 {
        self.faults
    }
}

/// A sink that keeps what was written, and takes so many bytes at a time at the most. It keeps a list of its calls that
/// fail, counted from 0; a call that finds no memory fails too.
#[derive(Drop)]
pub struct MemorySink {
    bytes: Vec<u8>,
    piece: usize,
    failing: Vec<u64>,
    calls: u64,
    faults: u64,
    ghost some: { 0 < piece },
}

impl MemorySink {
    ghost use Rattle.std.specs.Prelude.{◌≡◌, ◌<◌, Some};

    /// A sink that holds these bytes already and takes at most `piece` bytes at a time. The calls of the numbers in
    /// `failing` fail.
    pub fn new(bytes: Vec<u8>, piece: usize, failing: Vec<u64>) -> Self
        requires { 0 < piece }
        ensures written { ⟦<MemorySink as Sink>⟧.written result ≡ Some bytes.items }
        ensures no_fault { ⟦<MemorySink as Sink>⟧.fault_count result ≡ 0 }
    {
        MemorySink {
            bytes,
            piece,
            failing,
            calls: 0,
            faults: 0,
        }
    }

    /// All that it holds.
    pub fn bytes(&self) -> &[u8]
        ensures { ⟦<MemorySink as Sink>⟧.written self.now ≡ Some result.now }
    {
        &self.bytes
    }
}

impl Sink for MemorySink {
    ghost written = { λ s. Some s.bytes.items };

    ghost fault_count = { λ s. s.faults };

    fn write(&mut self, piece: &[u8]) -> WriteAnswer {
        let call = self.calls;
        self.calls = call.saturating_add(1);
        let n = piece.len().min(self.piece);
        if self.failing.contains(&call) || self.bytes.extend_from_slice(&piece[..n]).is_err() {
            self.faults = self.faults.saturating_add(1);
            return WriteAnswer::Failed;
        }
        WriteAnswer::Put(n)
    }

    fn faults(&self) -> u64 {
        self.faults
    }
}
