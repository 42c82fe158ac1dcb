//! A recording is replayed, and compared with its replay.

ghost use Rattle.std.specs.Prelude.{◌≡◌, ◌↔◌, ◌+◌, ◌<◌, ◌≤◌, ℕ, List, length, IfOk, IsErrOf, IsErr};
ghost use Rattle.pg_client.specs.Answer.{answers_of};
ghost use Rattle.conversation_table.specs.Questions.{questions};
ghost use Rattle.pg_client.specs.declared.desk.DeskCall.{DeskCall};
ghost use Rattle.pg_client.specs.declared.ends.EndKind.{EndKind};
ghost use Rattle.replay_streams.specs.RecordedRuns.{IsRecordedRun};
ghost use Rattle.session_replay.specs.Verdicts.{IsReplay, IsVerdict, IsVerdictOn, IsVerdictSoFar};

use crate::comparing::{is_same_end, other_byte, other_call};
use crate::verdict::Verdict;
use conversation_runs::ServeError;
use pg_handlers::{DeskCall, EndKind, ScriptDesk};
use pg_messages::PgList;
use recording_text::Recording;
use relation_handlers::RelationTable;
use relation_serving::serve_relations_on;
use replay_streams::{BytesSink, BytesSource};
use std::alloc::{AllocError, Global};

/// Replays a recording over relations, and tells whether it has the calls, the replies and the end
/// of its replay. The replay serves the client's bytes once more, by a registry that gives the
/// recorded answers in their order, and after the last of them answers no.
///
/// The recording isn't changed, and only its key and its answers are copied. AllocError: memory ran
/// out.
pub fn verify(
    alloc: Global,
    relations: &RelationTable,
    recording: &Recording,
) -> Result<Verdict, AllocError>

    // Same says that the recording is that of a run.
    ensures same { IfOk result (λ verdict. (verdict ≡ Verdict.Same)
        ↔ IsRecordedRun relations.now recording.now) }

    // What any verdict says, by the replay, of which there is one.
    ensures verdict { IfOk result (λ verdict. (replies : List ℕ) (calls : List DeskCall)
        (kind : EndKind) → IsReplay relations.now recording.now replies calls kind
        → IsVerdict recording.now replies calls kind verdict) }
    ensures exists { IfOk result (IsVerdictOn relations.now recording.now) }
{
    let turns = turns_of(recording);
    let key = recording.key.copy_of()?;
    let answers = answers_of(alloc, recording.calls.as_slice())?;
    let mut desk = ScriptDesk::new(alloc, recording.pid, key, answers);
    let mut source = BytesSource {
        left: recording.client.as_slice(),
        reads: 0,
    };
    let mut sink = BytesSink {
        bytes: Vec::new(alloc),
        refused: 0,
    };
    let answer = serve_relations_on(alloc, &mut desk, relations, &mut source, &mut sink, turns);
    judge(answer, desk.calls(), sink.bytes.as_slice(), recording)
}

/// One turn for each byte of the client, one for its end, and one for each recorded question.
fn turns_of(recording: &Recording) -> u64
    ensures { result ≡ length recording.now.client + 1 + questions recording.now.calls }
{
    let bytes = recording.client.as_slice().len() as u64;
    let questions = questions_in(recording.calls.as_slice()) as u64;
    bytes + 1 + questions
}

/// How many questions are among calls.
fn questions_in(calls: &[DeskCall]) -> usize
    ensures count { result ≡ questions calls.now }
    ensures few { result ≤ length calls.now }
{
    let mut questions = 0usize;
    for call in calls {
        if let DeskCall::Ask(_) = call {
            questions += 1;
        }
    }
    questions
}

/// The answers of the registry among calls.
fn answers_of(alloc: Global, calls: &[DeskCall]) -> Result<PgList<bool>, AllocError>
    ensures { IfOk result (λ answers. answers ≡ answers_of calls.now) }
{
    let mut answers = PgList::new(alloc);
    for call in calls {
        match call {
            DeskCall::Ask(yes) | DeskCall::Cancel(_, _, yes) => answers.push(*yes)?,
            DeskCall::Start | DeskCall::Narrow => {}
        }
    }
    Ok(answers)
}

/// The verdict by the end of the replay, its calls and its replies. Where it spent all turns, it had
/// asked more questions than the recording has, so that its calls differ.
fn judge(
    answer: Result<EndKind, ServeError>,
    calls: &[DeskCall],
    replies: &[u8],
    recording: &Recording,
) -> Result<Verdict, AllocError>
    requires { IsErrOf answer ServeError.TurnLimit
        → questions recording.now.calls < questions calls.now }
    ensures ended { IfOk answer (λ kind.
        IfOk result (IsVerdict recording.now replies.now calls.now kind)) }
    ensures spent { IsErrOf answer ServeError.TurnLimit
        → IfOk result (IsVerdictSoFar recording.now calls.now) }
    ensures given_up { IsErr answer → ¬ IsErrOf answer ServeError.TurnLimit → IsErr result }
{
    match answer {
        Ok(kind) => Ok(compared(calls, replies, kind, recording)),
        Err(ServeError::TurnLimit) => match other_call(calls, recording.calls.as_slice()) {
            Some(place) => Ok(Verdict::Calls(place as u64)),
            None => unreachable!(),
        },
        Err(_) => Err(AllocError),
    }
}

/// What a replay says of the recording.
fn compared(calls: &[DeskCall], replies: &[u8], kind: EndKind, recording: &Recording) -> Verdict
    ensures { IsVerdict recording.now replies.now calls.now kind result }
{
    if let Some(place) = other_call(calls, recording.calls.as_slice()) {
        return Verdict::Calls(place as u64);
    }
    if let Some(place) = other_byte(replies, recording.replies.as_slice()) {
        return Verdict::Replies(place as u64);
    }
    if is_same_end(kind, recording.end) {
        Verdict::Same
    } else {
        Verdict::End(kind)
    }
}
