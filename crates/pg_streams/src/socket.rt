//! Sources and sinks over sockets. No clause says which bytes go over a socket.

ghost use Rattle.std.specs.Prelude.{◌≡◌, None, length, OnOk, IsErrOf};
ghost use Rattle.std.specs.Io.KnownBytes.{ReadConsumes, Appends};
ghost use Rattle.conversation_runs.specs.Streams.{sent_after};
ghost use Rattle.pg_streams.specs.Counts.{CountsFaults, IsCountedRead};
ghost use Rattle.pg_streams.specs.Sockets.{reads_of, faults_of, sent_of};

use crate::adapters::write_whole;
use conversation_runs::{Sink, SinkError, Source, SourceFailed};
use std::io::{Read, Write};
use std::net::TcpStream;
use std::os::unix::net::UnixStream;

/// A stream, and counts of what was done with it. The counts saturate at the greatest `u64`.
#[derive(Drop)]
pub struct Counted<T> {
    /// The stream.
    pub stream: T,
    /// How many reads gave at least one byte.
    pub reads: u64,
    /// How many calls failed.
    pub faults: u64,
    /// How many bytes the sends had that didn't fail.
    pub sent: u64,
}

impl<T> Counted<T> {
    /// A stream with which nothing was done yet.
    pub fn new(stream: T) -> Counted<T>
        ensures reads { result.reads ≡ 0 }
        ensures faults { result.faults ≡ 0 }
        ensures sent { result.sent ≡ 0 }
        ensures stream { result.stream ≡ stream }
    {
        Counted {
            stream,
            reads: 0,
            faults: 0,
            sent: 0,
        }
    }
}

/// A connection, whose bytes go as they are: the negotiation of TLS is refused.
#[derive(Drop)]
pub enum MaybeTls {
    /// Over TCP.
    Plain(Counted<TcpStream>),
    /// Over a Unix socket.
    Unix(Counted<UnixStream>),
}

impl<T: Read> Counted<T> {
    /// Reads once, and counts.
    fn receive(&mut self, into: &mut [u8]) -> Result<usize, SourceFailed>
        // a read takes its bytes off those that are known of the stream
        ensures reader { ReadConsumes (T.remaining self.old.stream)
            (T.remaining self.new.stream) result into.new }
        ensures counted { IsCountedRead result (length into.old)
            self.old.reads self.new.reads self.old.faults self.new.faults }
    {
        match self.stream.read(into) {
            Ok(n) => {
                if n > 0 {
                    self.reads = self.reads.saturating_add(1);
                }
                Ok(n)
            }
            Err(_) => {
                self.faults = self.faults.saturating_add(1);
                Err(SourceFailed {})
            }
        }
    }
}

impl<T: Write> Counted<T> {
    /// Writes all bytes and flushes, and counts.
    fn send(&mut self, bytes: &[u8]) -> Result<(), SinkError>
        // what is known of the stream's bytes grows by all of them
        ensures writer { OnOk result (Appends (T.contents self.old.stream)
            (T.contents self.new.stream) bytes.now) }
        ensures reads { self.new.reads ≡ self.old.reads }
        ensures counted { CountsFaults result self.old.faults self.new.faults }
        ensures sent { self.new.sent ≡ sent_after result (length bytes.now) self.old.sent }
        ensures no_memory { IsErrOf result SinkError.NoMemory → ⊥ }
    {
        if write_whole(&mut self.stream, bytes) {
            self.sent = self.sent.saturating_add(bytes.len() as u64);
            Ok(())
        } else {
            self.faults = self.faults.saturating_add(1);
            Err(SinkError::Failed)
        }
    }
}

impl Source for MaybeTls {
    ghost use Rattle.pg_streams.specs.Sockets.{reads_of, faults_of};

    ghost left = { λ _. None };

    ghost reads = { reads_of };

    ghost faults = { faults_of };

    fn receive(&mut self, into: &mut [u8]) -> Result<usize, SourceFailed>
        ensures counted { IsCountedRead result (length into.old)
            (reads_of self.old) (reads_of self.new) (faults_of self.old) (faults_of self.new) }
    {
        match self {
            MaybeTls::Plain(socket) => socket.receive(into),
            MaybeTls::Unix(socket) => socket.receive(into),
        }
    }
}

impl Sink for MaybeTls {
    ghost use Rattle.pg_streams.specs.Sockets.{faults_of, sent_of};

    ghost written = { λ _. None };

    ghost faults = { faults_of };

    // each error is a fault
    ghost refused = { faults_of };

    ghost sent = { sent_of };

    fn send(&mut self, bytes: &[u8]) -> Result<(), SinkError>
        ensures reads { reads_of self.new ≡ reads_of self.old }
        ensures counted { CountsFaults result (faults_of self.old) (faults_of self.new) }
        ensures sent { sent_of self.new ≡ sent_after result (length bytes.now) (sent_of self.old) }
        ensures no_memory { IsErrOf result SinkError.NoMemory → ⊥ }
    {
        match self {
            MaybeTls::Plain(socket) => socket.send(bytes),
            MaybeTls::Unix(socket) => socket.send(bytes),
        }
    }
}
