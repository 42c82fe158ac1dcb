//! What is outside: where a client's bytes come from, and where the replies go.

ghost use Rattle.std.specs.Prelude.{◌≡◌, ℕ, List, [], Option, ◌≤◌, ◌<◌, length, IfOk, IfSome, OnOk, OnErr, IsErrOf};
ghost use Rattle.conversation_runs.specs.Streams.{GivesFront, GrowsBy, GrowsByFront, HasRisen, reads_after, refused_after, sent_after};

/// A read failed.
#[derive(Clone, Copy, Debug, PartialEq, Eq)]
pub struct SourceFailed {}

/// Where the bytes of a client come from.
pub trait Source {
    // the bytes still to come, where they are known
    ghost left: { Self → Option (List ℕ) };
    // the number of reads that gave at least one byte
    ghost reads: { Self → ℕ };
    // the number of reads that failed
    ghost faults: { Self → ℕ };
    // numbers that identify what it was made over, so that the lender can check that it is still
    // the same
    ghost origin: { Self → List ℕ } = { λ _. [] };

    /// Reads at least one byte, and at most as many as fit. 0 says that the input has ended.
    /// SourceFailed comes only where the count of faults rose, and nothing was taken then. An Ok
    /// leaves the count as it was.
    fn receive(&mut self, into: &mut [u8]) -> Result<usize, SourceFailed>
        requires { 0 < length into.old }
        ensures fits { IfOk result (λ n. n ≤ length into.old) }
        ensures bytes { IfOk result (λ n. IfSome (left self.old)
            (λ bytes. GivesFront n into.new bytes (left self.new))) }
        ensures counts { reads self.new ≡ reads_after result (reads self.old) }
        ensures failed { OnErr result (HasRisen (faults self.old) (faults self.new)) }
        ensures untouched { OnErr result (left self.new ≡ left self.old) }
        ensures calm { OnOk result (faults self.new ≡ faults self.old) }
        ensures never_falls { faults self.old ≤ faults self.new }
        ensures origin { origin self.new ≡ origin self.old };
}

/// Why not all bytes were written.
#[derive(Clone, Copy, Debug, PartialEq, Eq)]
pub enum SinkError {
    /// The write failed.
    Failed,
    /// Memory ran out.
    NoMemory,
}

/// Where the replies go.
pub trait Sink {
    // all bytes that were written, where they are known
    ghost written: { Self → Option (List ℕ) };
    // the number of writes that failed
    ghost faults: { Self → ℕ };
    // the number of sends that were refused, for whatever reason
    ghost refused: { Self → ℕ };
    // the number of bytes of the other sends
    ghost sent: { Self → ℕ };
    // numbers that identify what it was made over, so that the lender can check that it is still
    // the same
    ghost origin: { Self → List ℕ } = { λ _. [] };

    /// Writes all bytes. Failed comes only where the count of faults rose; Ok and NoMemory leave it
    /// as it was. After an error a front of the bytes was written.
    ///
    /// Each error counts as one more send that was refused. At Ok the count of the bytes that were
    /// sent rises by their number. Both counts saturate at the greatest `u64`.
    fn send(&mut self, bytes: &[u8]) -> Result<(), SinkError>
        ensures ok { OnOk result (GrowsBy (written self.old) (written self.new) bytes.now) }
        ensures err { OnErr result (GrowsByFront (written self.old) (written self.new) bytes.now) }
        ensures refused { refused self.new ≡ refused_after result (refused self.old) }
        ensures sent { sent self.new ≡ sent_after result (length bytes.now) (sent self.old) }
        ensures failed { IsErrOf result SinkError.Failed
            → HasRisen (faults self.old) (faults self.new) }
        ensures no_memory { IsErrOf result SinkError.NoMemory → faults self.new ≡ faults self.old }
        ensures calm { OnOk result (faults self.new ≡ faults self.old) }
        ensures never_falls { faults self.old ≤ faults self.new }
        ensures origin { origin self.new ≡ origin self.old };
}
