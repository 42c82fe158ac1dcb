//! What parsers tell of statements beside the conversation, which asks only for columns without
//! formats.

ghost use Rattle.std.specs.FinMap as fin;
ghost use Rattle.std.specs.Prelude.{◌≡◌, IfOk};

use pg_handlers::{ExtendedQueryHandler, NoopHandler};
use pg_messages::{ProtocolVersion, SecretKey, TransactionStatus};
use pg_portal::{
    ClientInfo, Format, Metadata, NoopQueryParser, PgWireConnectionState, PgWireError, QueryParser,
};
use relation_server::{RelationHandler, built_in_table};
use std::alloc::{AllocError, Global};

/// A client without parameters.
fn client(alloc: Global) -> Result<ClientInfo, AllocError>
    ensures { IfOk result (λ client. client.metadata ≡ fin.empty) }
{
    let Ok(secret_key) = SecretKey::try_new(alloc, &[1, 2, 3, 4]) else {
        return Err(AllocError);
    };
    Ok(ClientInfo {
        pid: 7,
        secret_key,
        protocol: ProtocolVersion::PROTOCOL3_0,
        metadata: Metadata::new(alloc),
        status: TransactionStatus::Idle,
        state: PgWireConnectionState::ReadyForQuery,
    })
}

/// How many columns the statement of `shifts` has, without formats and in binary; None where it has
/// parameters.
#[tactic(auto, using(crate::proofs::NoParameters::short_without_parameters))]
fn columns<Q: QueryParser>(
    alloc: Global,
    parser: &Q,
) -> Result<Option<(usize, usize)>, PgWireError> {
    let client = client(alloc)?;
    let Some(statement) = parser.parse_sql(alloc, &client, "shifts", &[])? else {
        return Ok(None);
    };
    if parser.get_parameter_types(alloc, &statement)?.len() > 0 {
        return Ok(None);
    }
    let plain = parser.get_result_schema(alloc, &statement, None)?.len();
    let binary = Some(&Format::UnifiedBinary);
    let binary = parser.get_result_schema(alloc, &statement, binary)?.len();
    Ok(Some((plain, binary)))
}

/// Whether the parser of relations tells one column of `shifts`.
fn is_shifts_told(alloc: Global) -> Result<bool, PgWireError> {
    let Ok(table) = built_in_table(alloc) else {
        return Ok(false);
    };
    let handler = RelationHandler {
        relations: &table,
        copying: NoopHandler,
    };
    let parser = handler.query_parser(alloc)?;
    Ok(columns(alloc, &parser)? == Some((1, 1)))
}

#[test]
fn parsers_tell_columns(rt: HostRuntime) {
    let noop = NoopQueryParser::new();
    assert!(rt; matches!(columns(rt.alloc(), &noop), Ok(Some((0, 0)))));
    assert!(rt; matches!(is_shifts_told(rt.alloc()), Ok(true)));
}
