//! Rows of conversations with cursors, as data on standard input: each is served by the handlers of
//! sample queries, and a line tells whether its replies, its end and its registry calls are the ones
//! that the row expects. The head of `stdin` has the format.
#![tactic(auto)]

ghost use Rattle.std.specs.Prelude.{◌≡◌, [], true, IfOk};
ghost use Rattle.cursor_session.specs.Fronts.{rest_of};

use cursor_judging::{CursorRows, Ending, Serving};
use cursor_session::CursorSession;
use pg_client::CancelDesk;
use pg_engine::serve_whole;
use pg_handlers::ScriptDesk;
use pg_portal::{ListRows, MemPortalStore};
use pg_streams::{MemorySink, MemorySource};
use row_files::{Fault, judge_lines};
use sample_handlers::{SampleCopying, SampleHandlers, SampleStatement};
use std::alloc::{AllocError, Global};
use std::io;
use std::sync::Arc;

/// A session with cursors, over a store in memory.
type SampleSession = CursorSession<SampleHandlers, MemPortalStore<SampleStatement, ListRows>>;

/// The handlers of sample queries, with a store in memory.
#[derive(Drop)]
struct Samples;

impl Serving for Samples {
    fn serve<'t>(
        &self,
        alloc: Global,
        desk: &mut ScriptDesk,
        source: &mut MemorySource,
        sink: &mut MemorySink,
        turns: u64,
    ) -> Result<Ending, Fault<'t>> {
        let front = front_at(alloc, desk)?;
        Ok(serve_whole(alloc, front, desk, source, sink, turns))
    }
}

/// The front of a session that awaits the client whom this desk knows.
fn front_at(alloc: Global, desk: &ScriptDesk) -> Result<SampleSession, AllocError>
    ensures open { IfOk result (λ session. session.is_open ≡ true) }
    ensures rest { IfOk result (λ session. rest_of session.front ≡ []) }
{
    let (pid, key) = desk.identity();
    let key = key.copy_of()?;
    let handlers = Arc::new(alloc, SampleHandlers::new(SampleCopying::Taken))?;
    let store = MemPortalStore::new(alloc);
    CursorSession::new(alloc, handlers, store, pid, key)
}

fn main(rt: HostRuntime) -> io::Result<()> {
    judge_lines(&rt, rt.alloc(), &CursorRows { serving: Samples })
}
