//! Laws of a conversation with cursors. The functions take nothing and do nothing: their contracts
//! are the laws.

ghost use Rattle.std.specs.Prelude.{◌≡◌, ◌≢◌, ℕ, ℤ, pos, Bool, false, List, [], ◌∷◌, Ok, Some, None, codes};
ghost use Rattle.pg_messages.specs.declared.data.DataRow.{DataRow};
ghost use Rattle.pg_messages.specs.declared.backend.PgWireBackendMessage.TheVariants as server;
ghost use Rattle.pg_messages.specs.declared.extendedquery.Execute.{Execute};
ghost use Rattle.pg_messages.specs.declared.frontend.PgWireFrontendMessage.{PgWireFrontendMessage};
ghost use Rattle.pg_messages.specs.declared.frontend.PgWireFrontendMessage.TheVariants as client;
ghost use Rattle.pg_messages.specs.declared.simplequery.Query.{Query};
ghost use Rattle.pg_results.specs.declared.client.PgWireConnectionState.TheVariants as phase;
ghost use Rattle.pg_portal.specs.Fetching.{items_to_come};
ghost use Rattle.pg_results.specs.Told.{ToldRows};
ghost use Rattle.pg_client.specs.Answer.{Goes};
ghost use Rattle.conversation_table.specs.Handlers.{Handlers};
ghost use Rattle.pg_replies.specs.Replies.{ready};
ghost use Rattle.pg_client.specs.State.{State};
ghost use Rattle.conversation_table.specs.Table.{whole_table};
ghost use Rattle.conversation_laws.specs.Pages.{HasStarted, Leaves, SentRows, Starts, stage_under};
ghost use Rattle.cursor_commands.specs.declared.command.CursorCommand.{CursorCommand};
ghost use Rattle.cursor_commands.specs.declared.command.CursorCommand.TheVariants.{Fetch};
ghost use Rattle.cursor_commands.specs.Commands.{command_of};
ghost use Rattle.cursor_commands.specs.Cursors.{fetched};
ghost use Rattle.cursor_table.specs.CursorTable.{cursor_table, is_ready};
ghost use Rattle.cursor_laws.specs.CursorPages.{
  FetchStarts,
  FetchesPage,
  KeepsCursor,
  RowsJoin,
  TellsFetch,
  command_taken,
  is_fetch_of,
};
ghost use Rattle.cursor_laws.specs.Examples.{HasThreeRows, fetch_two};

/// For each portal, the rows sent by Execute and by FETCH, in any mix, the rows dropped and the
/// failed items, joined in order, are a front of its source's items.
///
/// A FETCH takes a page of the items that are to come of a started portal, or of the response that
/// starts it, as an Execute does, or it fails and takes none. Each other command leaves them as
/// they are, or the portal is removed or replaced. A message that is no command is answered as
/// without cursors.
pub fn rows_of_cursors<S>()
    ensures fetch { (h : Handlers S) (answers : List Bool) (s : State S) (query : Query)
        (name : List ℕ) (limit : ℤ)
        → s.info.state ≡ phase.ReadyForQuery → command_of query.query ≡ Some (Fetch limit name)
        → name ≢ [] → HasStarted (stage_under s name)
        → FetchesPage name limit (items_to_come (stage_under s name))
        (cursor_table is_ready (whole_table h) answers s (client.Query query)) }
    ensures other { (h : Handlers S) (answers : List Bool) (s t : State S) (name : List ℕ)
        (query : Query) (command : CursorCommand)
        → s.info.state ≡ phase.ReadyForQuery → command_of query.query ≡ Some command
        → is_fetch_of name command ≡ false
        → (cursor_table is_ready (whole_table h) answers s (client.Query query)).next ≡ Goes t
        → KeepsCursor name command s t }
    ensures no_command { (h : Handlers S) (answers : List Bool) (s : State S)
        (m : PgWireFrontendMessage)
        → command_taken s.info.state m ≡ None
        → cursor_table is_ready (whole_table h) answers s m ≡ whole_table h answers s m }
    ensures in_turn { (h : Handlers S) (answers : List Bool) (s : State S) (name : List ℕ)
        (messages : List PgWireFrontendMessage)
        → HasStarted (stage_under s name)
        → RowsJoin (cursor_table is_ready (whole_table h)) name answers s messages
        (items_to_come (stage_under s name)) }
    ensures from_an_execute { (h : Handlers S) (answers : List Bool) (s : State S) (m : Execute)
        (r : ToldRows) (messages : List PgWireFrontendMessage)
        → Starts h answers s m r
        → RowsJoin (cursor_table is_ready (whole_table h)) m.name answers s
        (client.Execute m ∷ messages) r.items }
    ensures from_a_fetch { (h : Handlers S) (answers : List Bool) (s : State S) (query : Query)
        (name : List ℕ) (r : ToldRows) (messages : List PgWireFrontendMessage)
        → FetchStarts h answers s query name r
        → RowsJoin (cursor_table is_ready (whole_table h)) name answers s
        (client.Query query ∷ messages) r.items }
{}

/// An example: of a portal with three rows to come, and no column, `fetch 2 from c;` sends two,
/// which are its page; so by the law above the third row is left.
pub fn two_of_three_rows<S>()
    ensures sent { (h : Handlers S) (answers : List Bool) (s : State S)
        (one two three : DataRow) → HasThreeRows h s one two three
        → (cursor_table is_ready (whole_table h) answers s (client.Query fetch_two)).replies
        ≡ server.DataRow one ∷ server.DataRow two ∷ fetched 2 ∷ ready s.info.status ∷ [] }
    ensures page { (h : Handlers S) (answers : List Bool) (s : State S)
        (one two three : DataRow) → HasThreeRows h s one two three
        → TellsFetch (pos 2)
        (cursor_table is_ready (whole_table h) answers s (client.Query fetch_two)).replies
        (SentRows (one ∷ two ∷ []) ∷ []) }
    ensures left { (h : Handlers S) (answers : List Bool) (s : State S)
        (one two three : DataRow) → HasThreeRows h s one two three
        → Leaves (codes "c") (Ok three ∷ [])
        (cursor_table is_ready (whole_table h) answers s (client.Query fetch_two)).next }
{}
