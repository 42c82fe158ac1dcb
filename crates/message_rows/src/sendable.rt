//! Which replies can be sent.

ghost use Rattle.std.specs.Prelude.{IsTrue, FitsSigned, map};
ghost use Rattle.std.specs.List.{AllByRecursion};
ghost use Rattle.std.specs.Int.{w16};
ghost use Rattle.pg_messages.specs.Replies.{IsEncodable, HasNoZero, reply_counts, reply_texts};

use pg_messages::{FieldDescription, PgStr, PgWireBackendMessage};

/// Whether a reply can be sent: by its length, its counts, none of them negative, and its texts.
pub fn is_encodable(reply: &PgWireBackendMessage) -> bool
    ensures { IsTrue result → IsEncodable reply.now }
{
    reply.body_len() <= 1_073_741_823 && counts_fit(reply) && texts_fit(reply)
}

fn counts_fit(reply: &PgWireBackendMessage) -> bool
    ensures { IsTrue result → AllByRecursion (FitsSigned w16) (reply_counts reply.now) }
{
    match reply {
        PgWireBackendMessage::ParameterDescription(m) => m.types.len() < 32_768,
        PgWireBackendMessage::RowDescription(m) => m.fields.len() < 32_768,
        PgWireBackendMessage::DataRow(m) => m.field_count >= 0,
        PgWireBackendMessage::CopyInResponse(m) => m.columns >= 0,
        PgWireBackendMessage::CopyOutResponse(m) => m.columns >= 0,
        PgWireBackendMessage::CopyBothResponse(m) => m.columns >= 0,
        _ => true,
    }
}

fn texts_fit(reply: &PgWireBackendMessage) -> bool
    ensures { IsTrue result → AllByRecursion HasNoZero (reply_texts reply.now) }
{
    match reply {
        PgWireBackendMessage::ParameterStatus(m) => has_no_zero(&m.name) && has_no_zero(&m.value),
        PgWireBackendMessage::RowDescription(m) => names_fit(m.fields.as_slice()),
        PgWireBackendMessage::CommandComplete(m) => has_no_zero(&m.tag),
        PgWireBackendMessage::ErrorResponse(m) => {
            has_no_zero(&m.info.severity)
                && has_no_zero(&m.info.code)
                && has_no_zero(&m.info.message)
        }
        _ => true,
    }
}

fn names_fit(fields: &[FieldDescription]) -> bool
    ensures { IsTrue result → AllByRecursion HasNoZero (map (λ f. f.name) fields.now) }
{
    for field in fields {
        if !has_no_zero(&field.name) {
            return false;
        }
    }
    true
}

fn has_no_zero(text: &PgStr) -> bool
    ensures { IsTrue result → HasNoZero text.now }
{
    !text.as_str().as_bytes().contains(&0)
}
