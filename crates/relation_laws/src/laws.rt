//! Laws of the errors that the server of relations tells. The functions take nothing and do
//! nothing: their contracts are the laws.

ghost use Rattle.std.specs.Prelude.{◌≡◌, ◌≤◌, ◌↔◌, ◌⊎◌, ℕ, ℤ, Bool, List, length, codes};
ghost use Rattle.std.specs.List.{Contains};
ghost use Rattle.pg_messages.specs.declared.frontend.PgWireFrontendMessage.{PgWireFrontendMessage};
ghost use Rattle.pg_messages.specs.declared.response.ErrorInfo.{ErrorInfo};
ghost use Rattle.pg_results.specs.declared.error.PgWireError.TheVariants as wire;
ghost use Rattle.pg_results.specs.Errors.{info_of};
ghost use Rattle.pg_client.specs.Answer.{Goes, Ends};
ghost use Rattle.pg_client.specs.declared.ends.EndKind.TheVariants as end;
ghost use Rattle.pg_client.specs.State.{State};
ghost use Rattle.relation_tables.specs.declared.Relation.{Relation};
ghost use Rattle.relation_tables.specs.declared.RelationStatement.{RelationStatement};
ghost use Rattle.relation_laws.specs.Told.{errors_among, served_codes, told_codes};
ghost use Rattle.relation_laws.specs.Causes.{
  AsksOtherVersion,
  BreaksProtocol,
  GivesCopyUp,
  IsCanceled,
  IsInCopy,
  MeetsTextWithoutStyle,
  NamesNoPortal,
  NamesNoRelation,
  NamesNoStatement,
  SendsCopy,
  answer,
  from_start,
};
ghost use Rattle.relation_laws.specs.Served.{IsServed, IsToldExactlyWhere};

/// Each error of the relation server has its cause, and each cause is told: in a state in which
/// relations are served, an ErrorResponse with a code stands in the answer to a message exactly
/// where the clause of that code says. The answer has at most one ErrorResponse, and no other code
/// is told.
pub fn errors_have_causes()
    // The startup version is neither 3.0 nor 3.2.
    ensures version { IsToldExactlyWhere (codes "FATAL") (codes "0A000") AsksOtherVersion }

    // Bind or Describe, taken in Ready, names a statement that isn't stored.
    ensures statement { IsToldExactlyWhere (codes "ERROR") (codes "26000") NamesNoStatement }

    // Describe or Execute, taken in Ready, names a portal that isn't stored.
    ensures portal { IsToldExactlyWhere (codes "ERROR") (codes "34000") NamesNoPortal }

    // Describe's byte is neither `S` nor `P`; an empty statement is bound with values; there are at
    // least two result codes and fewer than the columns.
    ensures protocol { IsToldExactlyWhere (codes "ERROR") (codes "08P01") BreaksProtocol }

    // The trimmed text of a Parse or Query is neither empty, nor BEGIN or COMMIT, nor a relation's
    // name, nor in a Query the COPY of a relation.
    ensures relation { IsToldExactlyWhere (codes "ERROR") (codes "42P01") NamesNoRelation }

    // A question of this query was answered true.
    ensures canceled { IsToldExactlyWhere (codes "ERROR") (codes "57014") IsCanceled }

    // A text cell is met, and the session's style text names none of the four styles.
    ensures style { IsToldExactlyWhere (codes "ERROR") (codes "22023") MeetsTextWithoutStyle }

    // CopyFail is taken in COPY.
    ensures copy_fail { IsToldExactlyWhere (codes "ERROR") (codes "XX000") GivesCopyUp }

    // CopyData or CopyDone is taken in COPY.
    ensures copy_data { IsToldExactlyWhere (codes "FATAL") (codes "08P01") SendsCopy }
    ensures one { (relations : List Relation) (answers : List Bool) (s : State RelationStatement)
        (m : PgWireFrontendMessage) → IsServed relations s
        → length (errors_among (answer relations answers s m).replies) ≤ 1 }
    ensures no_other { (relations : List Relation) (answers : List Bool)
        (s : State RelationStatement)
        (m : PgWireFrontendMessage) (info : ErrorInfo)
        → IsServed relations s
        → Contains (errors_among (answer relations answers s m).replies) info
        → Contains told_codes (info.severity, info.code) }

    // The conversation ends for an error exactly where that is FATAL.
    ensures fatal { (relations : List Relation) (answers : List Bool) (s : State RelationStatement)
        (m : PgWireFrontendMessage) → IsServed relations s
        → ((answer relations answers s m).next ≡ Ends end.Fatal)
        ↔ (AsksOtherVersion relations answers s m ⊎ SendsCopy relations answers s m) }
{}

/// Whatever messages a session begins with and whatever the registry answers, relations are served
/// in the state that they lead to, so that every further message is answered by the law above. No
/// COPY from the client is ever in progress, so its errors are never told. The errors of a query
/// that comes too early, and of a portal that isn't started, are never told either.
pub fn served_states_are_kept()
    ensures served { (relations : List Relation) (registration : ℤ × List ℕ) (answers : List Bool)
        (messages : List PgWireFrontendMessage) (s : State RelationStatement)
        → (from_start relations registration answers messages).next ≡ Goes s
        → IsServed relations s × (¬ IsInCopy s) }
    ensures told { (relations : List Relation) (registration : ℤ × List ℕ) (answers : List Bool)
        (messages : List PgWireFrontendMessage) (info : ErrorInfo)
        → Contains (errors_among (from_start relations registration answers messages).replies) info
        → Contains served_codes (info.severity, info.code) }
    ensures too_early { (relations : List Relation) (registration : ℤ × List ℕ)
        (answers : List Bool) (messages : List PgWireFrontendMessage)
        → ¬ (Contains (errors_among (from_start relations registration answers messages).replies)
        (info_of wire.NotReadyForQuery)) }
    ensures not_started { (relations : List Relation) (registration : ℤ × List ℕ)
        (answers : List Bool) (messages : List PgWireFrontendMessage)
        → ¬ (Contains (errors_among (from_start relations registration answers messages).replies)
        (info_of wire.PortalNotStarted)) }
{}
