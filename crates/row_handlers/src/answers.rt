//! What a server answers its queries with.

ghost use Rattle.std.specs.Prelude.{◌≡◌, ◌≤◌, IfOk, IfErr, length};
ghost use Rattle.std.specs.Option.{option_copied};
ghost use Rattle.pg_messages.specs.Replies.{IsEncodable};
ghost use Rattle.pg_results.specs.Rows.{IsAnswerableItem};
ghost use Rattle.pg_results.specs.Texts.{IsShortText};
ghost use Rattle.pg_results.specs.Told.{IsOutcome};
ghost use Rattle.pg_replies.specs.Replies.{row_description};
ghost use Rattle.row_handlers.specs.Answers.{AnswersTold, items_of};

use pg_messages::{PgBytes, PgList};
use pg_portal::{FieldInfo, Format, PgWireError, RowSource};
use pg_text::PgType;
use std::alloc::{AllocError, Global};

/// What queries mean, and the rows that they are answered with. Each query is one statement, and its
/// rows are known when it begins.
pub trait RowAnswers: Drop {
    /// What a query means.
    type Statement: Drop;

    /// Where the rows of a statement come from.
    type Rows: RowSource;

    // what it answers
    ghost told: { Self → AnswersTold Self.Statement };

    /// The statement of a query that isn't blank. `types` is None for a simple query, which has no
    /// parameters; else it has the types that the client gives the parameters. The error is
    /// `NoMemory`, or one of the implementer's choice, which is sent to the client.
    fn parse(
        &self,
        alloc: Global,
        query: &str,
        types: Option<&[Option<PgType>]>,
    ) -> Result<Self::Statement, PgWireError>
        requires { IsShortText query.now }
        ensures outcome { IsOutcome
            ((told self.now).parse query.now (option_copied types.entry)) result }
        ensures answerable { IfErr result IsAnswerableItem };

    /// The types of a statement's parameters.
    fn parameter_types(
        &self,
        alloc: Global,
        statement: &Self::Statement,
    ) -> Result<PgList<PgType>, AllocError>
        ensures types { IfOk result (λ types.
            types ≡ (told self.now).parameter_types statement.now) }
        ensures few { IfOk result (λ types. length types ≤ 32767) };

    /// The columns of a statement's rows in these formats. They can be sent as a reply.
    fn columns(
        &self,
        alloc: Global,
        statement: &Self::Statement,
        formats: &Format,
    ) -> Result<PgList<FieldInfo>, AllocError>
        ensures columns { IfOk result (λ fields.
            fields ≡ (told self.now).columns statement.now formats.now) }
        ensures sendable { IfOk result (λ fields. IsEncodable (row_description fields)) };

    /// The rows of a statement with its parameters, in these formats. A simple query has no
    /// parameter, and its rows are text. The error is `NoMemory`, or one of the implementer's choice,
    /// which is sent to the client in place of the rows.
    fn rows(
        &self,
        alloc: Global,
        statement: &Self::Statement,
        parameters: &[Option<PgBytes>],
        parameter_format: &Format,
        formats: &Format,
    ) -> Result<Self::Rows, PgWireError>
        ensures outcome { IsOutcome ((told self.now).rows statement.now parameters.now
            parameter_format.now formats.now) (items_of Self.Rows.items result) }
        ensures answerable { IfErr result IsAnswerableItem };
}
