//! Laws of a conversation. The functions take nothing and do nothing: their contracts are the laws.

ghost use Rattle.std.specs.Prelude.{◌≡◌, true, false, ℕ, Bool, List, ◌∷◌, ◌++◌};
ghost use Rattle.std.specs.List.{AllByRecursion};
ghost use Rattle.pg_messages.specs.declared.extendedquery.Execute.{Execute};
ghost use Rattle.pg_messages.specs.declared.extendedquery.PgSync.{PgSync};
ghost use Rattle.pg_messages.specs.declared.frontend.PgWireFrontendMessage.{PgWireFrontendMessage};
ghost use Rattle.pg_messages.specs.declared.frontend.PgWireFrontendMessage.TheVariants as client;
ghost use Rattle.pg_messages.specs.declared.response.ErrorInfo.{ErrorInfo};
ghost use Rattle.pg_results.specs.declared.client.PgWireConnectionState.TheVariants as phase;
ghost use Rattle.pg_results.specs.declared.error.PgWireError.{PgWireError};
ghost use Rattle.pg_results.specs.Errors.{info_of};
ghost use Rattle.pg_portal.specs.Fetching.{items_to_come};
ghost use Rattle.pg_results.specs.Told.{ToldRows};
ghost use Rattle.pg_client.specs.Answer.{Goes, conversation, joined};
ghost use Rattle.pg_client.specs.Effect.{Failed};
ghost use Rattle.conversation_table.specs.Handlers.{Handlers};
ghost use Rattle.pg_client.specs.State.{State};
ghost use Rattle.conversation_table.specs.Table.{whole_table, message_row};
ghost use Rattle.conversation_laws.specs.Discarding.{
  IsDiscarded,
  IsOfExtendedQuery,
  IsOutsideCopy,
  EndsWithError,
  has_error,
  unchanged,
  synced,
  behind_sync,
};
ghost use Rattle.conversation_laws.specs.Pages.{
  HasStarted,
  KeepsPortal,
  PagesJoin,
  Starts,
  TakesPage,
  is_execute_of,
  stage_under,
};

/// After an error in an extended message, discarding lasts until Sync and no longer: the error's
/// reply is the last one, and unless the error is fatal, each message but Terminate is dropped up
/// to the next Sync. That Sync is answered.
pub fn discards_until_sync<S>()
    ensures error { (h : Handlers S) (answers : List Bool) (s t : State S)
        (m : PgWireFrontendMessage) (e : PgWireError)
        → IsOfExtendedQuery s.info.state m → (message_row h answers s m).effect.outcome ≡ Failed t e
        → EndsWithError (info_of e) (whole_table h answers s m) }
    ensures error_response { (h : Handlers S) (answers : List Bool) (s : State S)
        (m : PgWireFrontendMessage)
        → s.info.state ≡ phase.ReadyForQuery → IsOfExtendedQuery s.info.state m
        → has_error (whole_table h answers s m).replies ≡ true
        → (info : ErrorInfo) × EndsWithError info (whole_table h answers s m) }
    ensures each { (h : Handlers S) (answers : List Bool) (s : State S) (m : PgWireFrontendMessage)
        → s.info.state ≡ phase.AwaitingSync → IsDiscarded m
        → whole_table h answers s m ≡ unchanged s }
    ensures all { (h : Handlers S) (answers : List Bool) (s : State S)
        (messages : List PgWireFrontendMessage)
        → s.info.state ≡ phase.AwaitingSync → AllByRecursion IsDiscarded messages
        → conversation (whole_table h) answers s messages ≡ unchanged s }
    ensures sync { (h : Handlers S) (answers : List Bool) (s : State S) (m : PgSync)
        → s.info.state ≡ phase.AwaitingSync → whole_table h answers s (client.PgSync m) ≡ synced s }
    ensures no_longer { (h : Handlers S) (answers : List Bool) (s : State S)
        (messages others : List PgWireFrontendMessage) (m : PgSync)
        → s.info.state ≡ phase.AwaitingSync → AllByRecursion IsDiscarded messages
        → conversation (whole_table h) answers s (messages ++ client.PgSync m ∷ others)
        ≡ joined (synced s) (conversation (whole_table h) answers (behind_sync s) others) }
{}

/// Each Sync that is taken outside COPY in a started session is answered by one ReadyForQuery,
/// which tells the status of the transaction; nothing is called, and the server is ready. Inside
/// COPY it is dropped.
pub fn sync_is_answered_once<S>()
    ensures outside { (h : Handlers S) (answers : List Bool) (s : State S) (m : PgSync)
        → IsOutsideCopy s.info.state → whole_table h answers s (client.PgSync m) ≡ synced s }
    ensures inside { (h : Handlers S) (answers : List Bool) (s : State S) (m : PgSync)
        (is_extended : Bool)
        → s.info.state ≡ phase.CopyInProgress is_extended
        → whole_table h answers s (client.PgSync m) ≡ unchanged s }
{}

/// For each portal, the pages sent, the pages dropped and the failed items, joined in order, are a
/// front of its source's items; and no page passes a positive limit.
///
/// An Execute takes a page of the items to come of a started portal, or of the response that starts
/// the portal. It leaves the other items. Each other message leaves all items as they are, or
/// removes or replaces the portal.
pub fn pages_join<S>()
    ensures page { (h : Handlers S) (answers : List Bool) (s : State S) (m : Execute)
        → s.info.state ≡ phase.ReadyForQuery → HasStarted (stage_under s m.name)
        → TakesPage m.name m.max_rows (items_to_come (stage_under s m.name))
        (whole_table h answers s (client.Execute m)) }
    ensures first_page { (h : Handlers S) (answers : List Bool) (s : State S) (m : Execute)
        (r : ToldRows)
        → Starts h answers s m r
        → TakesPage m.name m.max_rows r.items (whole_table h answers s (client.Execute m)) }
    ensures other { (h : Handlers S) (answers : List Bool) (s t : State S) (name : List ℕ)
        (m : PgWireFrontendMessage)
        → is_execute_of name s.info.state m ≡ false → (whole_table h answers s m).next ≡ Goes t
        → KeepsPortal h name m s t }
    ensures in_turn { (h : Handlers S) (answers : List Bool) (s : State S) (name : List ℕ)
        (messages : List PgWireFrontendMessage)
        → HasStarted (stage_under s name)
        → PagesJoin (whole_table h) name answers s messages (items_to_come (stage_under s name)) }
    ensures from_the_start { (h : Handlers S) (answers : List Bool) (s : State S) (m : Execute)
        (r : ToldRows)
        (messages : List PgWireFrontendMessage)
        → Starts h answers s m r
        → PagesJoin (whole_table h) m.name answers s (client.Execute m ∷ messages) r.items }
{}
