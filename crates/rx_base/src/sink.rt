//! Where bytes go.

ghost use Rattle.std.specs.Prelude.{◌≡◌, ◌<◌, ◌≤◌, ℕ, [], List, Option, Some, IfOk, length, vec_capacity};
ghost use Rattle.rx_base.specs.Sink.{Writes, WriteCause, failed_writes, write_answer, after_write};

use std::alloc::{AllocError, Global};
use std::io::Write;
use std::marker::Model;

/// What a write answers.
#[derive(Clone, Copy, Debug, PartialEq, Eq)]
pub enum WriteAnswer {
    /// So many bytes from the front of the piece were taken: at least one.
    Took(usize),
    /// Nothing was taken, and the sink counted a fault.
    Failed,
}

/// A place that bytes are written to, one after another.
///
/// Contracts see the bytes that were written, where a sink tells them, and how many faults it has
/// counted.
pub trait Sink {
    /// The bytes written, where they are told.
    ghost written: { Self → Option (List ℕ) };

    /// How many faults there were, up to the last number of 64 bits.
    ghost faults: { Self → ℕ };

    /// Takes bytes from the front of a piece, as many as the sink likes to take.
    fn write(&mut self, piece: &[u8]) -> WriteAnswer
        requires { 0 < length piece.now }
        ensures bytes { Writes (written self.old) (written self.new) result piece.now }
        ensures cause { WriteCause (faults self.old) (faults self.new) result };
}

/// A sink that keeps the bytes in memory, up to a capacity. Which of its writes fail is chosen
/// beforehand, and a write at full capacity fails too.
#[derive(Drop)]
pub struct MemSink<'a> {
    kept: Vec<u8>,
    limit: usize,
    most: usize,
    failing: &'a [u64],
    writes: u64,
    failed: u64,
}

impl<'a> Model for MemSink<'a> {
    ghost use Rattle.std.specs.Prelude.{◌<◌, ◌≤◌, length, vec_capacity};
    ghost use Rattle.rx_base.specs.Sink.{MemoryWritten};

    ghost Value = { MemoryWritten };

    ghost view = { λ s.
        record {
          written = s.kept.items;
          capacity = s.limit;
          step = s.most;
          fails = s.failing.now;
          calls = s.writes;
          faults = s.failed;
        } };

    ghost invariant = { λ s. (0 < s.most) × (length s.kept.items ≤ s.limit) × (s.limit ≤ vec_capacity s.kept) };
}

impl<'a> MemSink<'a> {
    /// A sink that keeps at most `capacity` bytes, all of them reserved now, and takes at most `step` at
    /// a time. Its writes numbered in `fails`, from 1 on, fail.
    pub fn new(
        alloc: Global,
        capacity: usize,
        step: usize,
        fails: &'a [u64],
    ) -> Result<MemSink<'a>, AllocError>
        requires { 0 < step }
        ensures { IfOk result (λ s. s
            ≡ record { written = []; capacity = capacity; step = step; fails = fails.now; calls = 0; faults = 0 }) }
    {
        Ok(MemSink {
            kept: Vec::with_capacity(alloc, capacity)?,
            limit: capacity,
            most: step,
            failing: fails,
            writes: 0,
            failed: 0,
        })
    }

    /// The bytes written so far.
    pub fn bytes(&self) -> &[u8]
        ensures { result.now ≡ self.now.written }
    {
        &self.kept
    }
}

impl Sink for MemSink<'_> {
    ghost written = { λ s. Some s.written };

    ghost faults = { λ s. s.faults };

    fn write(&mut self, piece: &[u8]) -> WriteAnswer
        requires { 0 < length piece.now }
        ensures bytes { Writes (Some self.old.written) (Some self.new.written) result piece.now }
        ensures cause { WriteCause self.old.faults self.new.faults result }
        ensures answer { result ≡ write_answer self.old piece.now }
        ensures after { self.new ≡ after_write self.old piece.now }
    {
        self.writes = self.writes.saturating_add(1);
        let number = self.writes;
        let room = self.limit - self.kept.len();
        if self.failing.contains(&number) || room == 0 {
            self.failed = self.failed.saturating_add(1);
            return WriteAnswer::Failed;
        }
        let count = self.most.min(piece.len().min(room));
        match self.kept.extend_from_slice(&piece[..count]) {
            Ok(()) => WriteAnswer::Took(count),
            Err(AllocError) => unreachable!(),
        }
    }
}

/// A sink over a writer of the standard library. It counts a fault at each error, and where the writer
/// takes nothing.
#[derive(Drop)]
pub struct WriteSink<W: Drop> {
    inner: W,
    failed: u64,
}

impl<W: Write + Drop> WriteSink<W> {
    /// A sink that writes into `inner`.
    pub fn new(inner: W) -> WriteSink<W>
        ensures written { ⟦<WriteSink<W> as Sink>⟧.written result ≡ W.contents inner }
        ensures faults { ⟦<WriteSink<W> as Sink>⟧.faults result ≡ 0 }
    {
        WriteSink { inner, failed: 0 }
    }
}

impl<W: Write + Drop> Sink for WriteSink<W> {
    ghost written = { λ s. W.contents s.inner };

    ghost faults = { λ s. s.failed };

    fn write(&mut self, piece: &[u8]) -> WriteAnswer
        requires { 0 < length piece.now }
        ensures bytes { Writes (W.contents self.old.inner) (W.contents self.new.inner) result piece.now }
        ensures cause { WriteCause self.old.failed self.new.failed result }
        ensures counted { self.new.failed ≡ failed_writes self.old.failed result }
    {
        match self.inner.write(piece) {
            Ok(0) => {
                self.failed = self.failed.saturating_add(1);
                WriteAnswer::Failed
            }
            Ok(count) => WriteAnswer::Took(count),
            Err(_) => {
                self.failed = self.failed.saturating_add(1);
                WriteAnswer::Failed
            }
        }
    }
}
