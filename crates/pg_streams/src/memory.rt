//! A source and a sink in memory, which give, take and fail as they are told.

ghost use Rattle.std.specs.Prelude.{◌≡◌, Some, ◌≤◌, ◌<◌, ◌++◌, ◌==◌, min, take, length, find, IfOk, IfErr, OnErr, OnOk};
ghost use Rattle.std.specs.Result.{is_err};
ghost use Rattle.conversation_runs.specs.Streams.{GivesFront, GrowsBy, GrowsByFront, refused_after, sent_after};
ghost use Rattle.pg_streams.specs.Counts.{CountsWriteFaults, IsCountedRead, raised};
ghost use Rattle.pg_streams.specs.Memory.{received, most_of, IsNextCall, IsUnread, IsUnwritten, told_to_fail, TakesAsTold};

use conversation_runs::{Sink, SinkError, Source, SourceFailed};
use pg_messages::{PgBytes, PgList};
use std::alloc::Global;
use std::marker::Model;

/// A source of bytes in memory, which gives them in pieces and fails as it is told.
#[derive(Drop)]
pub struct MemorySource {
    bytes: PgBytes,
    position: usize,
    pieces: PgList<usize>,
    fails: PgList<u64>,
    calls: u64,
    reads: u64,
    faults: u64,
}

impl Model for MemorySource {
    ghost use Rattle.std.specs.Prelude.{◌≤◌, drop, length};
    ghost use Rattle.pg_streams.specs.Memory.{Tape};

    ghost Value = { Tape };

    ghost view = { λ s. record {
      left = drop s.position s.bytes;
      pieces = s.pieces;
      fails = s.fails;
      calls =
          s.calls;
      reads = s.reads;
      faults = s.faults;
    } };

    ghost invariant = { λ s. s.position ≤ length s.bytes };
}

impl MemorySource {
    /// A source of these bytes. Call number i, from 0, gives at most `pieces[i]` bytes, where 0
    /// counts as 1. Past the list a call gives as many as fit. The calls whose numbers are in
    /// `fails` fail and take nothing.
    pub fn new(bytes: PgBytes, pieces: PgList<usize>, fails: PgList<u64>) -> MemorySource
        ensures { IsUnread bytes pieces fails result }
    {
        MemorySource {
            bytes,
            position: 0,
            pieces,
            fails,
            calls: 0,
            reads: 0,
            faults: 0,
        }
    }
}

/// The most bytes that a call gives, where there is room for `room` bytes.
fn most_given(piece: Option<usize>, room: usize) -> usize
    ensures { result ≡ most_of piece room }
{
    match piece {
        None => room,
        Some(piece) => piece.max(1).min(room),
    }
}

/// Copies at most `most` bytes, as many as are there, and returns their number.
fn copy_front(from: &[u8], most: usize, into: &mut [u8]) -> usize
    requires { most ≤ length into.old }
    ensures count { result ≡ min most (length from.now) }
    ensures front { take result into.new ≡ take result from.now }
{
    let n = most.min(from.len());
    into[..n].copy_from_slice(&from[..n]);
    n
}

impl Source for MemorySource {
    ghost left = { λ s. Some s.left };

    ghost reads = { λ s. s.reads };

    ghost faults = { λ s. s.faults };

    fn receive(&mut self, into: &mut [u8]) -> Result<usize, SourceFailed>
        requires { 0 < length into.old }
        ensures answer { result ≡ received self.old (length into.old) }
        ensures next { IsNextCall (is_err result) self.old self.new }
        ensures counted { IsCountedRead result (length into.old)
            self.old.reads self.new.reads self.old.faults self.new.faults }
        ensures bytes { IfOk result (λ n. GivesFront n into.new self.old.left
            (Some self.new.left)) }
        ensures untouched { OnErr result (self.new.left ≡ self.old.left) }
    {
        let call = self.calls;
        self.calls = call.saturating_add(1);
        if self.fails.as_slice().contains(&call) {
            self.faults = self.faults.saturating_add(1);
            return Err(SourceFailed {});
        }
        let piece = self.pieces.as_slice().get(call as usize).copied();
        let most = most_given(piece, into.len());
        let n = copy_front(&self.bytes.as_slice()[self.position..], most, into);
        self.position += n;
        if n > 0 {
            self.reads = self.reads.saturating_add(1);
        }
        Ok(n)
    }
}

/// A sink that keeps what is written in memory, and fails as it is told.
#[derive(Drop)]
pub struct MemorySink {
    bytes: Vec<u8>,
    fails: PgList<(u64, usize)>,
    calls: u64,
    faults: u64,
    refused: u64,
    sent: u64,
}

impl Model for MemorySink {
    ghost use Rattle.pg_streams.specs.Memory.{Drain};

    ghost Value = { Drain };

    ghost view = { λ s. record {
      bytes = s.bytes.items;
      fails = s.fails;
      calls = s.calls;
      faults = s.faults;
      refused = s.refused;
      sent = s.sent;
    } };
}

impl MemorySink {
    /// A sink to which nothing was written. Calls are numbered from 0. A call whose number is in
    /// `fails` takes the number of bytes beside it there, or all where there are fewer, and then
    /// fails.
    pub fn new(alloc: Global, fails: PgList<(u64, usize)>) -> MemorySink
        ensures { IsUnwritten fails result }
    {
        MemorySink {
            bytes: Vec::new(alloc),
            fails,
            calls: 0,
            faults: 0,
            refused: 0,
            sent: 0,
        }
    }

    /// All that was written.
    pub fn bytes(&self) -> &[u8]
        ensures { result.now ≡ self.now.bytes }
    {
        self.bytes.as_slice()
    }
}

/// The entry of this call among those that fail, if there is one.
fn told_failure(fails: &[(u64, usize)], call: u64) -> Option<(u64, usize)>
    ensures { result ≡ find (λ f. f.0 == call) fails.now }
{
    fails.iter().copied().find(|f| f.0 == call)
}

impl Sink for MemorySink {
    ghost written = { λ s. Some s.bytes };

    ghost faults = { λ s. s.faults };

    ghost refused = { λ s. s.refused };

    ghost sent = { λ s. s.sent };

    fn send(&mut self, bytes: &[u8]) -> Result<(), SinkError>
        ensures taken { TakesAsTold (told_to_fail self.old) result self.old.bytes self.new.bytes
            bytes.now }
        ensures fails { self.new.fails ≡ self.old.fails }
        ensures calls { self.new.calls ≡ raised self.old.calls }
        ensures counted { CountsWriteFaults result self.old.faults self.new.faults }
        ensures refused { self.new.refused ≡ refused_after result self.old.refused }
        ensures sent { self.new.sent ≡ sent_after result (length bytes.now) self.old.sent }
        ensures ok { OnOk result (GrowsBy (Some self.old.bytes) (Some self.new.bytes) bytes.now) }
        ensures err { OnErr result (GrowsByFront (Some self.old.bytes) (Some self.new.bytes)
            bytes.now) }
    {
        let call = self.calls;
        self.calls = call.saturating_add(1);
        match told_failure(self.fails.as_slice(), call) {
            None => {
                self.append(bytes)?;
                self.sent = self.sent.saturating_add(bytes.len() as u64);
                Ok(())
            }
            Some((_, n)) => {
                self.append(&bytes[..n.min(bytes.len())])?;
                self.faults = self.faults.saturating_add(1);
                self.refused = self.refused.saturating_add(1);
                Err(SinkError::Failed)
            }
        }
    }
}

impl MemorySink {
    /// Appends bytes. Where memory runs out, it appends none of them, and the send is refused.
    fn append(&mut self, bytes: &[u8]) -> Result<(), SinkError>
        ensures ok { OnOk result (self.new
            ≡ record self.old { bytes = self.old.bytes ++ bytes.now }) }
        ensures err { IfErr result (λ e. (e ≡ SinkError.NoMemory)
            × (self.new ≡ record self.old { refused = raised self.old.refused })) }
    {
        match self.bytes.extend_from_slice(bytes) {
            Ok(()) => Ok(()),
            Err(_) => {
                self.refused = self.refused.saturating_add(1);
                Err(SinkError::NoMemory)
            }
        }
    }
}
