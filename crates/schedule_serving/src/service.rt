//! Clients that share the schedule, as what a program serves.

ghost use Rattle.std.specs.Prelude.{◌≡◌};

use client_listening::SharedService;
use client_services::Service;
use pg_session::{CancelDesk, EndKind, ServeError, Sink, Source};
use schedule::Schedule;
use shared_history::{Naming, Opened};
use shared_services::{SharedClients, WorldService};
use shared_worlds::Course;
use std::alloc::{AllocError, Global};
use std::sync::Wait;

/// Clients that share a schedule, as what a program serves. Which schedule it is, its name `J` says.
///
/// It is `WorldService` over the schedule, as a type of its own: a program that starts
/// threads over it need not know of which types the schedule is made.
#[derive(Drop)]
pub struct ScheduleClients<R: Wait + Drop, J: Naming> {
    service: WorldService<R, J, Schedule>,
}

impl<R: Wait + Copy + Drop, J: Naming> ScheduleClients<R, J> {
    /// A schedule without a shift, and nobody who comes to it yet. Clients wait for its lock by `rt`.
    /// The only error is running out of memory.
    pub fn new(
        rt: R,
        alloc: Global,
        opened: Opened<Course<Schedule>>,
    ) -> Result<ScheduleClients<R, J>, AllocError>
        requires { opened ≡ J.table }
    {
        let clients = SharedClients::new(rt, alloc, opened)?;
        Ok(ScheduleClients {
            service: WorldService::over(clients),
        })
    }
}

impl<R: Wait + Copy + Drop, J: Naming> Service for ScheduleClients<R, J> {
    ghost use Rattle.std.specs.Prelude.{◌≡◌};
    ghost use Rattle.pg_client.specs.State.{first_state};
    ghost use Rattle.moving_runs.specs.Sheets.{Ahead, sheet_rules};
    ghost use Rattle.moving_services.specs.Met.{FindsWorld, WasMet};
    ghost use Rattle.schedule.specs.World.{schedule};
    ghost use Rattle.shared_services.specs.Newcomers.{IsNewcomer};
    ghost use Rattle.shared_worlds.specs.Sharing.{MeetsShared};
    ghost use Rattle.shift_orders.specs.declared.statement.ShiftStatement.{ShiftStatement};

    ghost At = { Ahead ShiftStatement };

    ghost rules = { λ s. sheet_rules };

    // whatever the sheets to come
    ghost begins = { λ s pid key first. first.state ≡ first_state pid key };

    // the sheets are those of the client's messages, each of which was met in turn
    ghost also = { λ s first turns answer left new_left calls before after.
        WasMet (MeetsShared schedule) (FindsWorld (λ handlers. handlers) (IsNewcomer schedule)) first left new_left calls };

    fn serve<D: CancelDesk, S: Source, K: Sink>(
        &self,
        alloc: Global,
        desk: &mut D,
        source: &mut S,
        sink: &mut K,
        turn_limit: u64,
    ) -> Result<EndKind, ServeError> {
        self.service.serve(alloc, desk, source, sink, turn_limit)
    }
}

impl<R: Wait + Copy + Drop, J: Naming> SharedService for ScheduleClients<R, J> {
    // which schedule it is, the type says
    ghost Shared = { Unit {0} };

    ghost shared = { λ s. tt };

    fn share(&self) -> Result<ScheduleClients<R, J>, AllocError> {
        Ok(ScheduleClients {
            service: self.service.share()?,
        })
    }
}
