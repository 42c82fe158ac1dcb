ghost use Rattle.std.specs.Prelude.{◌≡◌, ◌↔◌, ◌⊎◌, ℕ, List, [], ◌∷◌, ◌++◌, IfOk, IfErr, OnOk, OnErr, true, false};
ghost use Rattle.pg_cancel.specs.LegalHistory.{IsLegal, IsCanceled, IsConnected};
ghost use Rattle.pg_cancel.specs.declared.entries.RegistryCall.{RegistryCall};
ghost use Rattle.pg_cancel.specs.declared.entries.RegistryAnswer.{RegistryAnswer};
ghost use Rattle.pg_cancel.specs.Connections.{HasMade, HasEnded, Made, Begins, IsNamed, IsSameConnection, HasNarrowed, HasTakenIn, before_last, calls_of, is_register, yes_if};
ghost use Rattle.pg_cancel.specs.RosterTable.{IsHandle, IsLeft, IsToldTo};

use crate::entries::{RegistryAnswer, RegistryCall};
use crate::manager::ConnectionManager;
use crate::seat::{Compare, Copy, Place, TakeIn};
use pg_messages::SecretKey;
use std::alloc::AllocError;
use std::marker::Model;
use std::sync::Wait;
use std::thread;

/// How many questions are answered no between two yields of the processor.
const NOES: u32 = 63;

/// A live registration, the right to make calls under its number.
/// Contracts see who issued it, its number, pid and key, what it has seen of the history, and its
/// own calls there.
#[derive(Drop)]
pub struct ConnectionHandle {
    pub(crate) seat: Place,
    pub(crate) number: u64,
    pub(crate) pid: i32,
    pub(crate) key: SecretKey,
    /// How many questions were answered no since the last yield of the processor.
    pub(crate) noes: u32,
}

impl Model for ConnectionHandle {
    ghost use Rattle.pg_cancel.specs.Connections.{Connection, IsNamed};
    ghost use Rattle.pg_cancel.specs.RosterTable.{IsHandle};

    ghost Value = { Connection };

    ghost view = { λ h. record {
      issuer = h.seat.table_id;
      number = h.number;
      pid = h.pid;
      key = h.key;
      seen = h.seat.me.0.seen;
      mine = h.seat.me.0.mine;
    } };

    ghost invariant = { λ h.
        IsHandle h.seat.me h.number × IsNamed h.seat.me.0.mine h.number h.pid h.key };
}

/// What a connection had seen of the history.
#[derive(Drop)]
pub struct Note {
    seat: Place,
}

impl Model for Note {
    ghost use Rattle.pg_cancel.specs.Connections.{Witness};
    ghost use Rattle.pg_cancel.specs.RosterTable.{IsNote};

    ghost Value = { Witness };

    ghost view = { λ n. record { issuer = n.seat.table_id; seen = n.seat.me.0.seen } };

    ghost invariant = { λ n. IsNote n.seat.me };
}

impl ConnectionHandle {
    /// The place of its registration. Its own calls, which begin with the Register, are those that
    /// it has seen under this number.
    pub fn number(&self) -> u64
        ensures number { result ≡ self.now.number }
        ensures named { IsNamed self.now.mine self.now.number self.now.pid self.now.key }
        ensures legal { IsLegal self.now.seen }
        ensures own { calls_of self.now.number self.now.seen ≡ self.now.mine }
    {
        self.number
    }

    /// The process id of its registration.
    pub fn pid(&self) -> i32
        ensures { result ≡ self.now.pid }
    {
        self.pid
    }

    /// The secret key that it has now.
    pub fn key(&self) -> &SecretKey
        ensures { result.now ≡ self.now.key }
    {
        &self.key
    }
}

impl ConnectionManager {
    /// The connection starts a query, for which no cancel has come yet. Waits for the turn. After
    /// an error the handle is as it was.
    #[tactic(auto, using(crate::proofs::Events::named_more))]
    pub fn start_query<R: Wait>(
        &self,
        rt: &R,
        handle: &mut ConnectionHandle,
    ) -> Result<(), AllocError>
        requires issued { handle.old.issuer ≡ self.now }
        ensures same { IsSameConnection handle.old handle.new }
        ensures ok { OnOk result
            (HasMade handle.old RegistryCall.Start handle.new RegistryAnswer.Done) }
        ensures err { OnErr result (handle.new ≡ handle.old) }
    {
        let number = handle.number;
        let pid = handle.pid;
        match self.make_call(rt, &mut handle.seat, number, pid, RegistryCall::Start)? {
            RegistryAnswer::Done => Ok(()),
            _ => unreachable!(),
        }
    }

    /// Whether the connection's query was canceled since it was started; without a query it is not.
    /// Waits for the turn. Every 64th no yields the processor, so that a thread that asks again and
    /// again leaves time to the others. After an error the handle is as it was.
    #[tactic(auto, using(crate::proofs::Events::named_more))]
    pub fn ask<R: Wait>(&self, rt: &R, handle: &mut ConnectionHandle) -> Result<bool, AllocError>
        requires issued { handle.old.issuer ≡ self.now }
        ensures same { IsSameConnection handle.old handle.new }
        ensures ok { IfOk result
            (λ yes. HasMade handle.old RegistryCall.Ask handle.new (yes_if yes)) }
        ensures exactly { IfOk result
            (λ yes. (yes ≡ true) ↔ IsCanceled (before_last handle.new.seen) handle.old.number) }

        // A cancel that the handle has seen is heard.
        ensures heard { IfOk result
            (λ yes. IsCanceled handle.old.seen handle.old.number → yes ≡ true) }
        ensures err { OnErr result (handle.new ≡ handle.old) }
    {
        let number = handle.number;
        let pid = handle.pid;
        let answer = self.make_call(rt, &mut handle.seat, number, pid, RegistryCall::Ask)?;
        let yes = is_yes(answer);
        handle.noes = noes_after(handle.noes, yes);
        Ok(yes)
    }

    /// Cancels the query of the connection that has this pid and now has this key, and returns
    /// whether there is such a connection. The key is copied. Waits for the turn. After an error
    /// the handle is as it was.
    #[tactic(auto, using(crate::proofs::Events::named_more))]
    pub fn cancel<R: Wait>(
        &self,
        rt: &R,
        handle: &mut ConnectionHandle,
        pid: i32,
        key: &SecretKey,
    ) -> Result<bool, AllocError>
        requires issued { handle.old.issuer ≡ self.now }
        ensures same { IsSameConnection handle.old handle.new }
        ensures ok { IfOk result
            (λ yes. HasMade handle.old (RegistryCall.Cancel pid key.now) handle.new (yes_if yes)) }
        ensures exactly { IfOk result
            (λ yes. (yes ≡ true) ↔ IsConnected (before_last handle.new.seen) pid key.now) }
        ensures err { OnErr result (handle.new ≡ handle.old) }
    {
        let call = RegistryCall::Cancel(pid, key.copy_of()?);
        let number = handle.number;
        let own = handle.pid;
        let answer = self.make_call(rt, &mut handle.seat, number, own, call)?;
        Ok(is_yes(answer))
    }

    /// From now on the connection's key is the first four bytes of the one that it has. A cancel by
    /// the longer key that came before still counts. Waits for the turn. After an error the handle
    /// is as it was.
    #[tactic(auto, using(crate::proofs::Events::named_short))]
    pub fn narrow<R: Wait>(&self, rt: &R, handle: &mut ConnectionHandle) -> Result<(), AllocError>
        requires issued { handle.old.issuer ≡ self.now }
        ensures { HasNarrowed handle.old handle.new result }
    {
        let number = handle.number;
        let pid = handle.pid;
        match self.make_call(rt, &mut handle.seat, number, pid, RegistryCall::Narrow)? {
            RegistryAnswer::Done => {
                handle.key.narrow();
                Ok(())
            }
            _ => unreachable!(),
        }
    }

    /// Ends the registration. What the connection has seen stays in the note. Waits for the turn.
    /// After an AllocError the handle comes back as it was, and its registration is live.
    pub fn unregister<R: Wait>(
        &self,
        rt: &R,
        handle: ConnectionHandle,
    ) -> Result<Note, (ConnectionHandle, AllocError)>
        requires issued { handle.issuer ≡ self.now }
        ensures issued { IfOk result (λ note. note.issuer ≡ self.now) }
        ensures ok { IfOk result (λ note. HasEnded handle note) }
        ensures err { IfErr result (λ e. e.0 ≡ handle) }
    {
        let ConnectionHandle {
            mut seat,
            number,
            pid,
            key,
            noes,
        } = handle;
        match self.make_call(rt, &mut seat, number, pid, RegistryCall::Unregister) {
            Ok(_) => Ok(Note { seat }),
            Err(AllocError) => Err((
                ConnectionHandle {
                    seat,
                    number,
                    pid,
                    key,
                    noes,
                },
                AllocError,
            )),
        }
    }

    /// A note of what the handle has seen, for another handle. It doesn't wait, takes no memory and
    /// makes no event.
    pub fn note(&self, handle: &mut ConnectionHandle) -> Note
        requires issued { handle.old.issuer ≡ self.now }
        ensures issued { result.issuer ≡ self.now }
        ensures seen { result.seen ≡ handle.old.seen }
        ensures legal { IsLegal result.seen }
        ensures own { calls_of handle.old.number result.seen ≡ handle.old.mine }
        ensures same { handle.new ≡ handle.old }
    {
        let seat = self.table.shared.split_seat::<Copy>(&mut handle.seat);
        Note { seat }
    }

    /// Takes in what the note's giver had seen. What the handle has seen then begins with what it
    /// had seen before, and also with what the giver had seen. It doesn't wait, takes no memory and
    /// makes no event.
    pub fn take_in(&self, handle: &mut ConnectionHandle, note: Note)
        requires issued { (handle.old.issuer ≡ self.now) × (note.issuer ≡ self.now) }
        ensures { HasTakenIn handle.old note handle.new }
    {
        let Note { seat } = note;
        let shared = &self.table.shared;
        shared.join_seat::<TakeIn>(&mut handle.seat, seat);
        let _ = shared.load::<Compare>(&mut handle.seat, 0);
    }

    /// Waits for the turn and makes a call, which is no Register, under the number and the pid of
    /// the seat's live registration.
    fn make_call<R: Wait>(
        &self,
        rt: &R,
        seat: &mut Place,
        number: u64,
        pid: i32,
        call: RegistryCall,
    ) -> Result<RegistryAnswer, AllocError>
        requires issued { seat.old.table_id ≡ self.now }
        requires handle { IsHandle seat.old.me number }
        requires begins { (key : List ℕ) × Begins seat.old.me.0.mine number pid key }
        requires call { is_register call ≡ false }
        ensures same { (seat.new.table_id ≡ seat.old.table_id) × (seat.new.id ≡ seat.old.id) }
        ensures ok { IfOk result (λ answer. IsLeft seat.new.me number call
            × Made number call seat.old.me.0.seen seat.old.me.0.mine
            seat.new.me.0.seen seat.new.me.0.mine answer) }
        ensures told { IfOk result (IsToldTo call) }
        ensures err { OnErr result (seat.new.me ≡ seat.old.me) }
    {
        self.take_turn(rt, seat);
        self.make_event(seat, number, pid, call)
    }
}

/// Whether the answer to an Ask or a Cancel is yes.
fn is_yes(answer: RegistryAnswer) -> bool
    requires { (answer ≡ RegistryAnswer.Yes) ⊎ (answer ≡ RegistryAnswer.No) }
    ensures { answer ≡ yes_if result }
{
    matches!(answer, RegistryAnswer::Yes)
}

/// Counts a question that was answered no. After `NOES` of them it yields the processor instead,
/// and counts from 0 again.
fn noes_after(noes: u32, yes: bool) -> u32 {
    if yes {
        return noes;
    }
    if noes < NOES {
        return noes + 1;
    }
    thread::yield_now();
    0
}
