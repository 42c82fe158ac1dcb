//! What the front makes of the client's bytes, frame by frame.

ghost use Rattle.std.specs.Prelude.{◌≡◌, ◌≤◌, ◌<◌, ◌++◌, List, ℕ, [], true, false, length, take, slice_index, Some};
ghost use Rattle.std.specs.List.{AllByRecursion};
ghost use Rattle.pg_messages.specs.Frames.{IsFrame, IsGoodHeader, header_len, told_len};
ghost use Rattle.pg_messages.specs.declared.frontend.PgWireFrontendMessage.{PgWireFrontendMessage};
ghost use Rattle.conversation_table.specs.Table.{is_startup_phase};
ghost use Rattle.cursor_commands.specs.Asking.{CanBeSent};
ghost use Rattle.cursor_commands.specs.Cursors.{messages_of};
ghost use Rattle.cursor_table.specs.CursorTable.{asked_command, is_ready_phase};
ghost use Rattle.cursor_session.specs.Fronts.{around, rest_of, told_by, IsStanding, IsQuiet, IsBetween, IsPart, IsBegun, FitsFrame};
ghost use Rattle.cursor_session.specs.Seen.{FrontTakes, front_seen};

use crate::asking::{ask, send_replies};
use crate::behind::FrontedSession;
use crate::frames::{awaits_startup, behind_len, command_asked, front_len, is_short, owed_by};
use bytes::BytesMut;
use cursor_commands::{CursorCommand, command_messages};
use pg_session::{CancelDesk, EndKind, Progress, ServeError, Sink, Turns};
use std::alloc::Global;
use std::mem;

/// A session, with the bytes that are held before it takes them. `owed` is how many bytes are to
/// come of the frame that the session has begun.
#[derive(Drop)]
pub(crate) struct Front<C> {
    inner: C,
    held: BytesMut,
    owed: usize,
}

impl<C: FrontedSession> Front<C> {
    /// A front of a session, which holds nothing.
    pub(crate) fn new(alloc: Global, inner: C) -> Front<C>
        ensures { front_seen C.seen result ≡ record { inner = C.seen inner; held = []; owed = 0 } }
    {
        Front {
            inner,
            held: BytesMut::new(alloc),
            owed: 0,
        }
    }

    /// Takes a piece of the client's bytes, part by part.
    pub(crate) fn take<D: CancelDesk, K: Sink>(
        &mut self,
        alloc: Global,
        desk: &mut D,
        piece: &[u8],
        sink: &mut K,
        turns: &mut Turns,
    ) -> Result<Progress, ServeError>
        requires { IsStanding (front_seen C.seen self.old) }
        ensures { FrontTakes C.told (front_seen C.seen self.old)
            (rest_of (front_seen C.seen self.old) ++ piece.now) (front_seen C.seen self.new)
            (around K.written K.faults K.origin D.told sink.old desk.old turns.old)
            (around K.written K.faults K.origin D.told sink.new desk.new turns.new) result }
    {
        let mut rest = piece;
        'parts: while !rest.is_empty() {
            let (part, behind) = rest.split_at(self.part_len(rest));
            match self.step(alloc, desk, part, sink, turns) {
                Ok(Progress::More) => {}
                Ok(Progress::Ended(kind)) => return Ok(Progress::Ended(kind)),
                Err(error) => return Err(error),
            }
            rest = behind;
        }
        Ok(Progress::More)
    }

    /// How many of the bytes belong to the frame at hand.
    fn part_len(&self, bytes: &[u8]) -> usize
        requires stands { IsStanding (front_seen C.seen self.now) }
        requires some { 0 < length bytes.now }
        ensures within { result ≤ length bytes.now }
        ensures part { IsPart (front_seen C.seen self.now) (take result bytes.now) }
    {
        if self.owed > 0 {
            return bytes.len().min(self.owed);
        }
        let awaiting = awaits_startup(self.inner.state());
        if self.held.is_empty() {
            return front_len(awaiting, bytes);
        }
        behind_len(awaiting, self.held.as_slice(), bytes.len())
    }

    /// Takes bytes of the frame at hand.
    fn step<D: CancelDesk, K: Sink>(
        &mut self,
        alloc: Global,
        desk: &mut D,
        part: &[u8],
        sink: &mut K,
        turns: &mut Turns,
    ) -> Result<Progress, ServeError>
        requires stands { IsStanding (front_seen C.seen self.old) }
        requires part { IsPart (front_seen C.seen self.old) part.now }
        ensures { FrontTakes C.told (front_seen C.seen self.old)
            (rest_of (front_seen C.seen self.old) ++ part.now) (front_seen C.seen self.new)
            (around K.written K.faults K.origin D.told sink.old desk.old turns.old)
            (around K.written K.faults K.origin D.told sink.new desk.new turns.new) result }
    {
        if self.owed > 0 {
            let owed = self.owed - part.len();
            return self.pass(alloc, desk, part, owed, sink, turns);
        }
        if self.held.is_empty() && !is_short(self.inner.state(), part) {
            return self.begin(alloc, desk, part, sink, turns);
        }
        self.hold(alloc, desk, part, sink, turns)
    }

    /// Holds bytes of the frame at hand, until it may begin.
    fn hold<D: CancelDesk, K: Sink>(
        &mut self,
        alloc: Global,
        desk: &mut D,
        part: &[u8],
        sink: &mut K,
        turns: &mut Turns,
    ) -> Result<Progress, ServeError>
        requires between { IsBetween (front_seen C.seen self.old) }
        requires fits { FitsFrame (is_startup_phase (C.seen self.old.inner).state.info.state)
            (self.old.held.items ++ part.now) }
        ensures { FrontTakes C.told (front_seen C.seen self.old)
            (self.old.held.items ++ part.now) (front_seen C.seen self.new)
            (around K.written K.faults K.origin D.told sink.old desk.old turns.old)
            (around K.written K.faults K.origin D.told sink.new desk.new turns.new) result }
    {
        self.held.extend_from_slice(part)?;
        if is_short(self.inner.state(), self.held.as_slice()) {
            return Ok(Progress::More);
        }
        let bytes = mem::replace(&mut self.held, BytesMut::new(alloc));
        self.begin(alloc, desk, bytes.as_slice(), sink, turns)
    }

    /// Takes the first bytes of a frame, which are all of it where it may be a command.
    fn begin<D: CancelDesk, K: Sink>(
        &mut self,
        alloc: Global,
        desk: &mut D,
        bytes: &[u8],
        sink: &mut K,
        turns: &mut Turns,
    ) -> Result<Progress, ServeError>
        requires between { IsBetween (front_seen C.seen self.old) }
        requires held { self.old.held.items ≡ [] }
        requires fits { FitsFrame (is_startup_phase (C.seen self.old.inner).state.info.state)
            bytes.now }
        requires header { header_len (is_startup_phase (C.seen self.old.inner).state.info.state)
            ≤ length bytes.now }
        requires query { is_ready_phase (C.seen self.old.inner).state.info.state ≡ true
            → slice_index bytes.now 0 ≡ 81 → IsGoodHeader false bytes.now
            → told_len false bytes.now ≤ length bytes.now }
        ensures { FrontTakes C.told (front_seen C.seen self.old) bytes.now
            (front_seen C.seen self.new)
            (around K.written K.faults K.origin D.told sink.old desk.old turns.old)
            (around K.written K.faults K.origin D.told sink.new desk.new turns.new) result }
    {
        let state = self.inner.state();
        match command_asked(alloc, state, bytes)? {
            Some(command) => self.answer(alloc, desk, &command, sink, turns),
            None => {
                let owed = owed_by(awaits_startup(state), bytes);
                self.pass(alloc, desk, bytes, owed, sink, turns)
            }
        }
    }

    /// Feeds the session with bytes of a frame that is no command. After them, `owed` bytes of the
    /// frame are to come.
    fn pass<D: CancelDesk, K: Sink>(
        &mut self,
        alloc: Global,
        desk: &mut D,
        bytes: &[u8],
        owed: usize,
        sink: &mut K,
        turns: &mut Turns,
    ) -> Result<Progress, ServeError>
        requires quiet { IsQuiet (C.seen self.old.inner) }
        requires held { self.old.held.items ≡ [] }
        requires begun { IsBegun (C.seen self.old.inner).state.info.state
            ((C.seen self.old.inner).rest ++ bytes.now) owed }
        ensures { FrontTakes C.told (front_seen C.seen self.old)
            ((C.seen self.old.inner).rest ++ bytes.now) (front_seen C.seen self.new)
            (around K.written K.faults K.origin D.told sink.old desk.old turns.old)
            (around K.written K.faults K.origin D.told sink.new desk.new turns.new) result }
    {
        self.owed = owed;
        self.inner.feed(alloc, desk, bytes, sink, turns)
    }

    /// Answers a command: its messages are handed to the session, whose replies to them are changed
    /// and sent.
    fn answer<D: CancelDesk, K: Sink>(
        &mut self,
        alloc: Global,
        desk: &mut D,
        command: &CursorCommand,
        sink: &mut K,
        turns: &mut Turns,
    ) -> Result<Progress, ServeError>
        requires between { IsBetween (front_seen C.seen self.old) }
        requires held { self.old.held.items ≡ [] }
        requires ready { is_ready_phase (C.seen self.old.inner).state.info.state ≡ true }
        requires sent { AllByRecursion CanBeSent (messages_of command.now) }
        ensures { (frame : List ℕ) (m : PgWireFrontendMessage) → IsFrame false frame m
            → asked_command m ≡ Some command.now
            → FrontTakes C.told (front_seen C.seen self.old) frame (front_seen C.seen self.new)
            (around K.written K.faults K.origin D.told sink.old desk.old turns.old)
            (around K.written K.faults K.origin D.told sink.new desk.new turns.new) result }
    {
        let messages = command_messages(alloc, command)?;
        match ask(alloc, desk, turns, &mut self.inner, messages) {
            Ok(end) => match send_replies(alloc, command, &mut self.inner, sink) {
                Ok(()) => Ok(told_by(end)),
                Err(error) => Err(error),
            },
            Err(error) => Err(error),
        }
    }
}

/// What a front tells of the end that the messages of a command came to.
fn told_by(end: Option<EndKind>) -> Progress
    ensures { result ≡ told_by end }
{
    match end {
        None => Progress::More,
        Some(kind) => Progress::Ended(kind),
    }
}
