//! COPY from the client (protocol: Message Flow, COPY Operations).

ghost use Rattle.std.specs.Prelude.{◌≡◌, ◌⊎◌, ◌++◌, codes, length, take, IfOk, IfErr, OnOk};
ghost use Rattle.pg_messages.specs.declared.frontend.PgWireFrontendMessage.TheVariants as frontend;
ghost use Rattle.pg_results.specs.Clients.{HasShortMetadata};
ghost use Rattle.pg_results.specs.Rows.{IsAnswerable};
ghost use Rattle.pg_results.specs.declared.error.PgWireError.TheVariants as wire;
ghost use Rattle.conversation_table.specs.CopyRows.{copy_step};
ghost use Rattle.pg_client.specs.Effect.{IsEffect, IsRefusedEffect, Done};
ghost use Rattle.pg_client.specs.Errors.{copy_given_up};
ghost use Rattle.conversation_table.specs.Good.{IsGiven};
ghost use Rattle.conversation_table.specs.Handlers.{CopyTold};
ghost use Rattle.pg_client.specs.State.{state_of};

use pg_client::Client;
use pg_messages::{CopyData, CopyDone, CopyFail, ErrorInfo, PgStr};
use pg_portal::{PgWireError, PortalStore};
use std::alloc::{AllocError, Global};

/// What a server does with the data of a COPY from the client. Its calls may append replies, and
/// change nothing else of the client. An error ends the COPY. It is NoMemory, or the handler's own,
/// and then the replies before it stay in the outbox.
pub trait CopyHandler {
    // its replies to each message, and its errors
    ghost told: { Self → CopyTold };

    /// Takes data.
    fn on_copy_data<St: PortalStore>(
        &self,
        alloc: Global,
        client: &mut Client<St>,
        copy_data: CopyData,
    ) -> Result<(), PgWireError>
        requires given { IsGiven (frontend.CopyData copy_data) }
        requires short_metadata { HasShortMetadata client.old.info }
        ensures ok { OnOk result (IsEffect
            (copy_step (state_of St.maps client.old)
            ((told self.now).on_data client.old.info copy_data.payload))
            client.old.outbox client.new.outbox (Done (state_of St.maps client.new))) }
        ensures refused { IfErr result (IsRefusedEffect
            (copy_step (state_of St.maps client.old)
            ((told self.now).on_data client.old.info copy_data.payload))
            client.old.outbox client.new.outbox (state_of St.maps client.new)) }
        ensures answerable { IfErr result IsAnswerable }
        ensures info { client.new.info ≡ client.old.info }
        ensures kept { take (length client.old.outbox) client.new.outbox ≡ client.old.outbox }
        ensures store { St.maps client.new.store ≡ St.maps client.old.store };

    /// Takes the end of the data.
    fn on_copy_done<St: PortalStore>(
        &self,
        alloc: Global,
        client: &mut Client<St>,
        done: CopyDone,
    ) -> Result<(), PgWireError>
        requires given { IsGiven (frontend.CopyDone done) }
        requires short_metadata { HasShortMetadata client.old.info }
        ensures ok { OnOk result (IsEffect
            (copy_step (state_of St.maps client.old)
            ((told self.now).on_done client.old.info))
            client.old.outbox client.new.outbox (Done (state_of St.maps client.new))) }
        ensures refused { IfErr result (IsRefusedEffect
            (copy_step (state_of St.maps client.old)
            ((told self.now).on_done client.old.info))
            client.old.outbox client.new.outbox (state_of St.maps client.new)) }
        ensures answerable { IfErr result IsAnswerable }
        ensures info { client.new.info ≡ client.old.info }
        ensures kept { take (length client.old.outbox) client.new.outbox ≡ client.old.outbox }
        ensures store { St.maps client.new.store ≡ St.maps client.old.store };

    /// The error that ends a COPY where the client gives it up: the one that `told` has in
    /// `on_fail`, or `NoMemory`.
    fn on_copy_fail<St: PortalStore>(
        &self,
        alloc: Global,
        client: &mut Client<St>,
        fail: CopyFail,
    ) -> PgWireError
        requires given { IsGiven (frontend.CopyFail fail) }
        requires short_metadata { HasShortMetadata client.old.info }
        ensures error { (result ≡ (told self.now).on_fail client.old.info fail.message)
            ⊎ (result ≡ wire.NoMemory) }
        ensures answerable { IsAnswerable result }
        ensures same { client.new ≡ client.old };
}

/// The error XX000 with the text `COPY IN mode terminated by the user: ` and the client's own text,
/// or `NoMemory`. A COPY handler that has no error of its own returns it for CopyFail.
pub fn copy_given_up(alloc: Global, fail: CopyFail) -> PgWireError
    requires { IsGiven (frontend.CopyFail fail) }
    ensures error { (result ≡ wire.UserError (copy_given_up fail.message))
        ⊎ (result ≡ wire.NoMemory) }
    ensures answerable { IsAnswerable result }
{
    match given_up(alloc, fail.message.as_str()) {
        Ok(info) => PgWireError::UserError(info),
        Err(_) => PgWireError::NoMemory,
    }
}

/// What a client is told about a COPY that it gave up.
fn given_up(alloc: Global, text: &str) -> Result<ErrorInfo, AllocError>
    ensures { IfOk result (λ info. info ≡ copy_given_up text.now) }
{
    let mut message = String::from_str(alloc, "COPY IN mode terminated by the user: ")?;
    message.push_str(text)?;
    Ok(ErrorInfo::new(
        PgStr::copy_of(alloc, "ERROR")?,
        PgStr::copy_of(alloc, "XX000")?,
        PgStr::copy_of(alloc, message.as_str())?,
    ))
}
