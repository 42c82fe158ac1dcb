//! Prepared statements, and the parsers that make them of queries.

ghost use Rattle.std.specs.Prelude.{◌≡◌, IsTrue, IfOk, IfErr, IfSome, map, refl};
ghost use Rattle.std.specs.Arc.{arc_value};
ghost use Rattle.std.specs.Option.{option_copied};
ghost use Rattle.pg_types.specs.Types.{type_of_oid};
ghost use Rattle.pg_messages.specs.declared.backend.PgWireBackendMessage.TheVariants as server;
ghost use Rattle.pg_messages.specs.Replies.{IsEncodable};
ghost use Rattle.pg_results.specs.Clients.{HasShortMetadata};
ghost use Rattle.pg_results.specs.Fields.{description_of};
ghost use Rattle.pg_results.specs.Rows.{IsAnswerable};
ghost use Rattle.pg_results.specs.Statements.{prepared};
ghost use Rattle.pg_results.specs.Texts.{IsShortText, is_blank, is_padding};
ghost use Rattle.pg_results.specs.Told.{ParserTold, IsOutcome};

use crate::client::ClientInfo;
use crate::error::PgWireError;
use crate::field_info::FieldInfo;
use crate::format::Format;
use pg_messages::{Parse, PgList, PgStr};
use pg_types::PgType;
use std::alloc::{AllocError, Global};
use std::sync::Arc;

/// Parses the queries of clients.
pub trait QueryParser {
    /// What a query means.
    type Statement: Drop;

    // what each call returns
    ghost told: { Self → ParserTold Self.Statement };

    /// The statement of a query, whose parameters' types are given as far as the client knows them.
    /// None is an empty statement. The errors are the parser's own, which the client is told, and
    /// `NoMemory`.
    fn parse_sql(
        &self,
        alloc: Global,
        client: &ClientInfo,
        sql: &str,
        types: &[Option<PgType>],
    ) -> Result<Option<Self::Statement>, PgWireError>
        requires short_metadata { HasShortMetadata client.now }
        requires short_query { IsShortText sql.now }
        ensures outcome { IsOutcome ((told self.now).parse client.now sql.now types.now) result }
        ensures given { IfOk result (λ found. IfSome found
            (λ s. IsTrue ((told self.now).gives s))) }
        ensures answerable { IfErr result IsAnswerable };

    /// The types of a statement's parameters, as the server knows them. The errors are as in
    /// `parse_sql`.
    fn get_parameter_types(
        &self,
        alloc: Global,
        stmt: &Self::Statement,
    ) -> Result<PgList<PgType>, PgWireError>
        requires { IsTrue ((told self.now).gives stmt.now) }
        ensures outcome { IsOutcome ((told self.now).parameter_types stmt.now) result }
        ensures answerable { IfErr result IsAnswerable };

    /// The columns of a statement's rows, in these formats, or without formats. They can be sent as
    /// a reply. The errors are as in `parse_sql`.
    fn get_result_schema(
        &self,
        alloc: Global,
        stmt: &Self::Statement,
        column_format: Option<&Format>,
    ) -> Result<PgList<FieldInfo>, PgWireError>
        requires { IsTrue ((told self.now).gives stmt.now) }
        ensures outcome { IsOutcome
            ((told self.now).columns stmt.now (option_copied column_format.entry)) result }
        ensures sendable { IfOk result (λ fields.
            IsEncodable (server.RowDescription (record { fields = map description_of fields }))) }
        ensures answerable { IfErr result IsAnswerable };
}

impl<Q: QueryParser> QueryParser for Arc<Q> {
    type Statement = Q::Statement;

    ghost told = { λ parser. Q.told (arc_value parser) };

    fn parse_sql(
        &self,
        alloc: Global,
        client: &ClientInfo,
        sql: &str,
        types: &[Option<PgType>],
    ) -> Result<Option<Q::Statement>, PgWireError> {
        (**self).parse_sql(alloc, client, sql, types)
    }

    fn get_parameter_types(
        &self,
        alloc: Global,
        stmt: &Q::Statement,
    ) -> Result<PgList<PgType>, PgWireError> {
        (**self).get_parameter_types(alloc, stmt)
    }

    fn get_result_schema(
        &self,
        alloc: Global,
        stmt: &Q::Statement,
        column_format: Option<&Format>,
    ) -> Result<PgList<FieldInfo>, PgWireError> {
        (**self).get_result_schema(alloc, stmt, column_format)
    }
}

/// A parser whose statement is the query's text, without parameters and columns.
#[derive(Drop)]
pub struct NoopQueryParser;

impl NoopQueryParser {
    /// The parser.
    pub fn new() -> NoopQueryParser {
        NoopQueryParser
    }
}

impl QueryParser for NoopQueryParser {
    ghost use Rattle.pg_results.specs.Noop.{noop_told};

    type Statement = PgStr;

    ghost told = { λ _. noop_told };

    fn parse_sql(
        &self,
        alloc: Global,
        _client: &ClientInfo,
        sql: &str,
        _types: &[Option<PgType>],
    ) -> Result<Option<PgStr>, PgWireError> {
        Ok(Some(PgStr::copy_of(alloc, sql)?))
    }

    fn get_parameter_types(
        &self,
        alloc: Global,
        _stmt: &PgStr,
    ) -> Result<PgList<PgType>, PgWireError> {
        Ok(PgList::new(alloc))
    }

    fn get_result_schema(
        &self,
        alloc: Global,
        _stmt: &PgStr,
        _column_format: Option<&Format>,
    ) -> Result<PgList<FieldInfo>, PgWireError> {
        Ok(PgList::new(alloc))
    }
}

/// A prepared statement.
#[derive(Drop)]
pub struct StoredStatement<S> {
    /// Its name; the empty text is the unnamed one.
    pub id: PgStr,
    /// What its query means.
    pub statement: S,
    /// The types of its parameters as they were given, None where the client left one open.
    pub parameter_types: PgList<Option<PgType>>,
}

impl<S: Drop> StoredStatement<S> {
    /// The statement of these parts.
    pub fn new(
        id: PgStr,
        statement: S,
        parameter_types: PgList<Option<PgType>>,
    ) -> StoredStatement<S>
        ensures { result ≡ record {
          id = id;
          statement = statement;
          parameter_types = parameter_types;
        } }
    {
        StoredStatement {
            id,
            statement,
            parameter_types,
        }
    }

    /// The statement of a Parse, under its name. None is an empty statement. It comes where the
    /// query is only whitespace and semicolons, and the parser isn't called then. It comes too
    /// where the parser returns None. A type that isn't known is left open. The errors are the
    /// parser's, and `NoMemory`.
    pub fn parse<Q: QueryParser<Statement = S>>(
        alloc: Global,
        client: &ClientInfo,
        parse: &Parse,
        parser: &Q,
    ) -> Result<Option<StoredStatement<S>>, PgWireError>
        requires short_metadata { HasShortMetadata client.now }
        requires short_query { IsShortText parse.now.query }
        ensures outcome { IsOutcome (prepared (Q.told parser.now) client.now parse.now) result }
        ensures given { IfOk result (λ found.
            IfSome found (λ stored. IsTrue ((Q.told parser.now).gives stored.statement))) }
        ensures answerable { IfErr result IsAnswerable }
    {
        let query = parse.query.as_str();
        if is_blank(query) {
            return Ok(None);
        }
        let parameter_types = types_of(alloc, parse.type_oids.as_slice())?;
        match parser.parse_sql(alloc, client, query, parameter_types.as_slice())? {
            Some(statement) => Ok(Some(StoredStatement {
                id: PgStr::copy_of(alloc, parse.name.as_str())?,
                statement,
                parameter_types,
            })),
            None => Ok(None),
        }
    }
}

/// Whether a query is whitespace and semicolons alone.
pub fn is_blank(query: &str) -> bool
    ensures { result ≡ is_blank query.now }
{
    query.as_bytes().iter().all(|byte| is_padding(*byte))
}

/// Whether a byte is ignored around a query: whitespace, which is the bytes 09 to 0D and 20, or a
/// semicolon.
pub fn is_padding(byte: u8) -> bool
    ensures { result ≡ is_padding byte }
{
    matches!(byte, 9..=13 | b' ' | b';')
}

/// The types with these oids, None where there is no such type.
fn types_of(alloc: Global, oids: &[u32]) -> Result<PgList<Option<PgType>>, AllocError>
    ensures { IfOk result (λ types. types ≡ map type_of_oid oids.now) }
{
    let mut types = PgList::new(alloc);
    for oid in oids {
        types.push(PgType::from_oid(*oid))?;
    }
    Ok(types)
}
