//! The first place at which two lists differ.

ghost use Rattle.std.specs.Prelude.{◌≡◌, ◌≢◌, ◌↔◌, IsTrue, IfSome, IfNone};
ghost use Rattle.session_replay.specs.Verdicts.{DiffersAt};

use pg_handlers::{DeskCall, EndKind};

/// The first place at which bytes differ, or those of one side have ended.
pub(crate) fn other_byte(made: &[u8], told: &[u8]) -> Option<usize>
    ensures some { IfSome result (λ place. DiffersAt made.now told.now place) }
    ensures none { IfNone result (made.now ≡ told.now) }
{
    // Mostly they are the same, and one comparison of them all shows that sooner.
    if made == told {
        return None;
    }
    let both = made.len().min(told.len());
    for place in 0..both {
        if made[place] != told[place] {
            return Some(place);
        }
    }
    end_of_one(both, made.len(), told.len())
}

/// The first place at which calls differ, or those of one side have ended.
pub(crate) fn other_call(made: &[DeskCall], told: &[DeskCall]) -> Option<usize>
    ensures some { IfSome result (λ place. DiffersAt made.now told.now place) }
    ensures none { IfNone result (made.now ≡ told.now) }
{
    let both = made.len().min(told.len());
    for place in 0..both {
        if !is_same_call(&made[place], &told[place]) {
            return Some(place);
        }
    }
    end_of_one(both, made.len(), told.len())
}

/// Where one side ends, if not both do.
fn end_of_one(both: usize, made: usize, told: usize) -> Option<usize>
    ensures some { IfSome result (λ place. (place ≡ both) × (made ≢ told)) }
    ensures none { IfNone result (made ≡ told) }
{
    if made == told { None } else { Some(both) }
}

/// Whether two calls are one and the same.
fn is_same_call(made: &DeskCall, told: &DeskCall) -> bool
    ensures { IsTrue result ↔ (made.now ≡ told.now) }
{
    match (made, told) {
        (DeskCall::Start, DeskCall::Start) => true,
        (DeskCall::Ask(yes), DeskCall::Ask(other)) => *yes == *other,
        (DeskCall::Cancel(pid, key, yes), DeskCall::Cancel(other, others, its)) => {
            *pid == *other && key.is_same(others) && *yes == *its
        }
        (DeskCall::Narrow, DeskCall::Narrow) => true,
        _ => false,
    }
}

/// Whether two ends are one and the same.
pub(crate) fn is_same_end(made: EndKind, told: EndKind) -> bool
    ensures { IsTrue result ↔ (made ≡ told) }
{
    match (made, told) {
        (EndKind::Terminate, EndKind::Terminate) => true,
        (EndKind::InputEnd, EndKind::InputEnd) => true,
        (EndKind::BadFrame, EndKind::BadFrame) => true,
        (EndKind::Fatal, EndKind::Fatal) => true,
        (EndKind::CancelServed, EndKind::CancelServed) => true,
        _ => false,
    }
}
