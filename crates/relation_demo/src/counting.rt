//! The rows among replies.

ghost use Rattle.std.specs.Prelude.{◌≡◌, ◌≢◌, ◌^◌, Some, ◌+◌, ◌<◌, ◌≤◌, ◌++◌, ◌∷◌, ℕ, List, [], length, IfSome, IsNone, MatchOption};
ghost use Rattle.pg_messages.specs.declared.backend.PgWireBackendMessage.{PgWireBackendMessage};
ghost use Rattle.pg_messages.specs.Fields.{count32};
ghost use Rattle.pg_messages.specs.Replies.{reply_bytes, reply_type, replies_bytes};
ghost use Rattle.relation_demo.specs.Counting.{row_count, IsTold, AreTold};

/// The type byte of a row.
const DATA_ROW: u8 = b'D';

/// The type byte of a reply of one byte, which refuses encryption.
const REFUSAL: u8 = b'N';

/// How many rows stand among replies, one after another. A reply is a type byte and an Int32
/// length, which counts itself and the body behind it; or the byte `N` alone. Where a reply is cut
/// or its length is below 4, the count ends.
pub fn count_rows(replies: &[u8]) -> u64
    ensures { (messages : List PgWireBackendMessage)
        → replies.now ≡ replies_bytes messages → AreTold messages → result ≡ row_count messages }
{
    let mut rows = 0;
    let mut rest = replies;
    while let Some((kind, behind)) = first_reply(rest) {
        if kind == DATA_ROW {
            rows += 1;
        }
        rest = behind;
    }
    rows
}

/// The type byte of the first reply, and what stands behind the reply.
fn first_reply(bytes: &[u8]) -> Option<(u8, &[u8])>
    ensures first { (m : PgWireBackendMessage) (others : List ℕ)
        → bytes.now ≡ reply_bytes m ++ others → IsTold m
        → MatchOption result ⊥ (λ found. (found.0 ≡ reply_type m) × (found.1.now ≡ others)) }
    ensures end { bytes.now ≡ [] → IsNone result }
    ensures shorter { IfSome result (λ found. length found.1.now < length bytes.now) }
{
    let (kind, rest) = bytes.split_first()?;
    let len = reply_len(*kind, rest)?;
    if rest.len() < len {
        return None;
    }
    let (_, behind) = rest.split_at(len);
    Some((*kind, behind))
}

/// How many bytes a reply has behind its type byte.
fn reply_len(kind: u8, rest: &[u8]) -> Option<usize>
    ensures alone { kind ≡ 78 → result ≡ Some 0 }
    ensures told { (len : ℕ) (behind : List ℕ) → kind ≢ 78 → rest.now ≡ count32 len ++ behind
        → 4 ≤ len → len < 2 ^ 32 → result ≡ Some len }
{
    if kind == REFUSAL {
        return Some(0);
    }
    if rest.len() < 4 {
        return None;
    }
    let len = u32::from_be_bytes([rest[0], rest[1], rest[2], rest[3]]);
    if len < 4 {
        return None;
    }
    Some(len as usize)
}
