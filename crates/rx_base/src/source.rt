//! Where bytes come from.

ghost use Rattle.std.specs.Prelude.{◌≡◌, ◌<◌, ℕ, List, Option, Some, length};
ghost use Rattle.rx_base.specs.Source.{Reads, ReadCause, failed_reads, read_answer, after_read};

use std::io::Read;
use std::marker::Model;

/// What a read answers.
#[derive(Clone, Copy, Debug, PartialEq, Eq)]
pub enum ReadAnswer {
    /// So many bytes now stand at the front of the buffer: at least one.
    Got(usize),
    /// No byte is left.
    End,
    /// Nothing was read, and the source counted a fault.
    Failed,
}

/// Bytes that are read one after another.
///
/// Contracts see the bytes that are left, where a source tells them, and how many faults it has counted.
pub trait Source {
    /// The bytes left, where they are told.
    ghost left: { Self → Option (List ℕ) };

    /// How many faults there were, up to the last number of 64 bits.
    ghost faults: { Self → ℕ };

    /// Reads the next bytes into a buffer, as many as the source likes to give.
    fn read(&mut self, buf: &mut [u8]) -> ReadAnswer
        requires { 0 < length buf.old }
        ensures bytes { Reads (left self.old) (left self.new) result buf.new }
        ensures cause { ReadCause (faults self.old) (faults self.new) result };
}

/// A source over bytes in memory. Which of its reads fail is chosen beforehand.
#[derive(Drop)]
pub struct MemSource<'a> {
    rest: &'a [u8],
    most: usize,
    failing: &'a [u64],
    reads: u64,
    failed: u64,
}

impl<'a> Model for MemSource<'a> {
    ghost use Rattle.std.specs.Prelude.{◌<◌};
    ghost use Rattle.rx_base.specs.Source.{MemoryLeft};

    ghost Value = { MemoryLeft };

    ghost view = { λ s.
        record { left = s.rest.now; step = s.most; fails = s.failing.now; calls = s.reads; faults = s.failed } };

    ghost invariant = { λ s. 0 < s.most };
}

impl<'a> MemSource<'a> {
    /// A source that gives at most `step` bytes at a time, and whose reads numbered in `fails`, from 1
    /// on, fail.
    pub fn new(bytes: &'a [u8], step: usize, fails: &'a [u64]) -> MemSource<'a>
        requires { 0 < step }
        ensures { result ≡ record { left = bytes.now; step = step; fails = fails.now; calls = 0; faults = 0 } }
    {
        MemSource {
            rest: bytes,
            most: step,
            failing: fails,
            reads: 0,
            failed: 0,
        }
    }
}

impl Source for MemSource<'_> {
    ghost left = { λ s. Some s.left };

    ghost faults = { λ s. s.faults };

    fn read(&mut self, buf: &mut [u8]) -> ReadAnswer
        requires { 0 < length buf.old }
        ensures bytes { Reads (Some self.old.left) (Some self.new.left) result buf.new }
        ensures cause { ReadCause self.old.faults self.new.faults result }
        ensures answer { result ≡ read_answer self.old (length buf.old) }
        ensures after { self.new ≡ after_read self.old (length buf.old) }
    {
        self.reads = self.reads.saturating_add(1);
        let number = self.reads;
        if self.failing.contains(&number) {
            self.failed = self.failed.saturating_add(1);
            return ReadAnswer::Failed;
        }
        if self.rest.is_empty() {
            return ReadAnswer::End;
        }
        let count = self.most.min(buf.len().min(self.rest.len()));
        let (front, rest) = self.rest.split_at(count);
        buf[..count].copy_from_slice(front);
        self.rest = rest;
        ReadAnswer::Got(count)
    }
}

/// A source over a reader of the standard library. It counts a fault at each error.
#[derive(Drop)]
pub struct ReadSource<R: Drop> {
    inner: R,
    failed: u64,
}

impl<R: Read + Drop> ReadSource<R> {
    /// A source that reads from `inner`.
    pub fn new(inner: R) -> ReadSource<R>
        ensures left { ⟦<ReadSource<R> as Source>⟧.left result ≡ R.remaining inner }
        ensures faults { ⟦<ReadSource<R> as Source>⟧.faults result ≡ 0 }
    {
        ReadSource { inner, failed: 0 }
    }
}

impl<R: Read + Drop> Source for ReadSource<R> {
    ghost left = { λ s. R.remaining s.inner };

    ghost faults = { λ s. s.failed };

    fn read(&mut self, buf: &mut [u8]) -> ReadAnswer
        requires { 0 < length buf.old }
        ensures bytes { Reads (R.remaining self.old.inner) (R.remaining self.new.inner) result buf.new }
        ensures cause { ReadCause self.old.failed self.new.failed result }
        ensures counted { self.new.failed ≡ failed_reads self.old.failed result }
    {
        match self.inner.read(buf) {
            Ok(0) => ReadAnswer::End,
            Ok(count) => ReadAnswer::Got(count),
            Err(_) => {
                self.failed = self.failed.saturating_add(1);
                ReadAnswer::Failed
            }
        }
    }
}
