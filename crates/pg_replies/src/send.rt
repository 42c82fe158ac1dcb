//! Replies to queries, appended to the outbox.

ghost use Rattle.std.specs.Prelude.{◌≡◌, ◌≤◌, ◌<◌, ◌+◌, ◌^◌, ◌++◌, ◌⊎◌, [], ◌∷◌, Some, None, true, false, length, map, take, Bool, List, Ok, codes, IfOk, IfErr, IfSome, OnOk, OnErr};
ghost use Rattle.pg_messages.specs.Fields.{count16, count32, int16, int32};
ghost use Rattle.pg_messages.specs.Replies.{IsEncodable, reply_body, reply_bytes, replies_bytes, field_description};
ghost use Rattle.std.specs.Arc.{arc_value};
ghost use Rattle.std.proofs.Common.{ap, append-nil};
ghost use Rattle.pg_messages.specs.declared.response.TransactionStatus.{TransactionStatus};
ghost use Rattle.pg_types.specs.Types.{oid_of};
ghost use Rattle.pg_messages.specs.declared.backend.PgWireBackendMessage.TheVariants as server;
ghost use Rattle.pg_results.specs.Fields.{description_of};
ghost use Rattle.pg_results.specs.Responses.{told_copy};
ghost use Rattle.pg_results.specs.Copying.{IsNextCopy, IsSendableCopy};
ghost use Rattle.pg_results.specs.Rows.{IsAnswerable, IsAnswerableItem};
ghost use Rattle.pg_results.specs.Page.{CutsPage, EndsPage, delivered_after, item_page, before_error};
ghost use Rattle.pg_results.specs.Tags.{tag_text};
ghost use Rattle.pg_results.specs.Told.{IsRest, told_rows};
ghost use Rattle.pg_results.specs.declared.error.PgWireError.{PgWireError};
ghost use Rattle.pg_replies.specs.Replies.{IsTag, ready, done, done_with, row_description, row_replies, parameter_description};
ghost use Rattle.pg_replies.specs.Descriptions.{columns_reply, description};
ghost use Rattle.pg_replies.specs.PageEnd.{page_replies, page_end};
ghost use Rattle.pg_replies.specs.ResponseRows.{sent_rows_behind, rows_front, sent_copy, copy_in_reply, copy_out_reply, copy_both_reply, copy_items, trailer_items, copy_count, copy_replies, copy_end, not_empty};
ghost use Rattle.pg_replies.specs.Sending.{IsSentPage, IsMetError, IsSentData, IsRefusedData, IsAllSent};
ghost use Rattle.pg_replies.specs.RowSending.{rows_behind};
ghost use Rattle.pg_replies.specs.Telling.{IsToldSo};

use itoa::Buffer;
use pg_messages::{
    CopyBothResponse, CopyData, CopyDone, CopyInResponse, CopyOutResponse, DataRow, NoData,
    ParameterDescription, PgBytes, PgList, PgWireBackendMessage, PortalSuspended,
    TransactionStatus,
};
use pg_outbox::Outbox;
use pg_results::{
    CopyResponse, CopySource, DeliveredPage, DescribeResponse, FieldInfo, PgWireError,
    QueryResponse, RowReceiver, RowSource, Tag, deliver_page, finish_copy_binary,
};
use pg_types::PgType;
use std::alloc::{AllocError, Global};

/// Appends a reply, and drops it. The only error is running out of memory, after which the outbox
/// is as it was.
#[inline(always)]
pub fn push_reply(outbox: &mut Outbox, reply: PgWireBackendMessage) -> Result<(), AllocError>
    requires { IsEncodable reply }
    ensures ok { OnOk result (outbox.new ≡ outbox.old ++ reply_bytes reply) }
    ensures err { OnErr result (outbox.new ≡ outbox.old) }
{
    outbox.push(&reply)
}

/// Appends ReadyForQuery with a transaction status. After an error the outbox is as it was.
pub fn send_ready_for_query(
    outbox: &mut Outbox,
    transaction_status: TransactionStatus,
) -> Result<(), AllocError>
    ensures ok { OnOk result
        (outbox.new ≡ outbox.old ++ replies_bytes (ready transaction_status ∷ [])) }
    ensures err { OnErr result (outbox.new ≡ outbox.old) }
{
    outbox.push_bytes(&ready_for_query(transaction_status))
}

/// The bytes of ReadyForQuery: its type byte, its length and the status.
fn ready_for_query(transaction_status: TransactionStatus) -> [u8; 6]
    ensures { result ≡ replies_bytes (ready transaction_status ∷ []) }
{
    match transaction_status {
        TransactionStatus::Idle => [b'Z', 0, 0, 0, 5, b'I'],
        TransactionStatus::Transaction => [b'Z', 0, 0, 0, 5, b'T'],
        TransactionStatus::Error => [b'Z', 0, 0, 0, 5, b'E'],
    }
}

/// Appends CommandComplete with the tag's text. After an error the outbox is as it was.
pub fn send_execution_response(
    alloc: Global,
    outbox: &mut Outbox,
    tag: Tag,
) -> Result<(), AllocError>
    requires { IsEncodable (done (tag_text tag)) }
    ensures ok { OnOk result
        (outbox.new ≡ outbox.old ++ replies_bytes (done (tag_text tag) ∷ [])) }
    ensures err { OnErr result (outbox.new ≡ outbox.old) }
{
    let complete = tag.into_command_complete(alloc)?;
    push_reply(outbox, PgWireBackendMessage::CommandComplete(complete))
}

/// Appends CommandComplete, whose tag is the command and the number of rows. The only error is
/// running out of memory, after which the outbox is as it was.
pub fn send_done(
    alloc: Global,
    outbox: &mut Outbox,
    command: &str,
    rows: u64,
) -> Result<(), AllocError>
    requires { IsTag command.now }
    ensures ok { OnOk result
        (outbox.new ≡ outbox.old ++ replies_bytes (done_with command.now rows ∷ [])) }
    ensures err { OnErr result (outbox.new ≡ outbox.old) }
{
    let start = outbox.len();
    let pushed = if rows < 10 {
        push_few_done(outbox, command, rows)
    } else {
        push_many_done(outbox, command, rows)
    };
    if let Err(error) = pushed {
        outbox.truncate(start);
        return Err(error);
    }
    Ok(())
}

/// Appends the bytes that `send_done` appends, for fewer than ten rows, as most commands have. The
/// digit needs no buffer. After an error some of them may be appended.
#[inline(always)]
fn push_few_done(outbox: &mut Outbox, command: &str, rows: u64) -> Result<(), AllocError>
    requires tag { IsTag command.now }
    requires few { rows < 10 }
    ensures ok { OnOk result
        (outbox.new ≡ outbox.old ++ replies_bytes (done_with command.now rows ∷ [])) }
    ensures err { OnErr result (take (length outbox.old) outbox.new ≡ outbox.old) }
{
    outbox.push_bytes(&done_head(command.len() + 3))?;
    outbox.push_bytes(command.as_bytes())?;
    outbox.push_bytes(&[b' ', b'0' + rows as u8, 0])?;
    Ok(())
}

/// Appends these bytes piece by piece, without a text of the tag. An error may leave some of them.
#[inline(never)]
fn push_many_done(outbox: &mut Outbox, command: &str, rows: u64) -> Result<(), AllocError>
    requires { IsTag command.now }
    ensures ok { OnOk result
        (outbox.new ≡ outbox.old ++ replies_bytes (done_with command.now rows ∷ [])) }
    ensures err { OnErr result (take (length outbox.old) outbox.new ≡ outbox.old) }
{
    let mut buffer = Buffer::new();
    let digits = buffer.format(rows);
    outbox.push_bytes(&done_head(command.len() + digits.len() + 2))?;
    outbox.push_bytes(command.as_bytes())?;
    outbox.push_bytes(b" ")?;
    outbox.push_bytes(digits.as_bytes())?;
    outbox.push_bytes(&[0])?;
    Ok(())
}

/// The type byte and the length of a CommandComplete, which `body` bytes follow.
fn done_head(body: usize) -> [u8; 5]
    requires { body ≤ 1073741823 }
    ensures { result ≡ 67 ∷ count32 (4 + body) }
{
    let [a, b, c, d] = (body as u32 + 4).to_be_bytes();
    [b'C', a, b, c, d]
}

/// Appends RowDescription.
#[inline(always)]
fn send_row_description(
    alloc: Global,
    outbox: &mut Outbox,
    fields: &[FieldInfo],
) -> Result<(), AllocError>
    requires { IsEncodable (row_description fields.now) }
    ensures ok { OnOk result
        (outbox.new ≡ outbox.old ++ replies_bytes (row_description fields.now ∷ [])) }
    ensures err { OnErr result (outbox.new ≡ outbox.old) }
{
    let start = outbox.len();
    if let Err(error) = push_row_description(outbox, fields) {
        outbox.truncate(start);
        return Err(error);
    }
    Ok(())
}

/// Appends RowDescription column by column. After an error some of its bytes may be appended.
fn push_row_description(outbox: &mut Outbox, fields: &[FieldInfo]) -> Result<(), AllocError>
    requires { IsEncodable (row_description fields.now) }
    ensures ok { OnOk result
        (outbox.new ≡ outbox.old ++ replies_bytes (row_description fields.now ∷ [])) }
    ensures kept { take (length outbox.old) outbox.new ≡ outbox.old }
{
    outbox.push_bytes(&description_head(body_len(fields), fields.len()))?;
    for field in fields {
        push_column(outbox, field)?;
    }
    Ok(())
}

/// How many bytes follow the length of a RowDescription: two for the count, and for each column its
/// name and 19 bytes.
fn body_len(fields: &[FieldInfo]) -> usize
    requires { IsEncodable (row_description fields.now) }
    ensures { result ≡ length (reply_body (row_description fields.now)) }
{
    let mut len = 2;
    for field in fields {
        len += field.name().len() + 19;
    }
    len
}

/// The type byte, length and count of a RowDescription with `body` bytes after the length.
fn description_head(body: usize, count: usize) -> [u8; 7]
    requires body { body ≤ 1073741823 }
    requires count { count ≤ 32767 }
    ensures { result ≡ 84 ∷ count32 (4 + body) ++ count16 count }
{
    let [a, b, c, d] = (body as u32 + 4).to_be_bytes();
    let [e, f] = (count as u16).to_be_bytes();
    [b'T', a, b, c, d, e, f]
}

/// Appends the bytes that describe a column. After an error some of them may be appended.
fn push_column(outbox: &mut Outbox, field: &FieldInfo) -> Result<(), AllocError>
    ensures ok { OnOk result
        (outbox.new ≡ outbox.old ++ field_description (description_of field.now)) }
    ensures err { OnErr result (take (length outbox.old) outbox.new ≡ outbox.old) }
{
    outbox.push_bytes(field.name().as_bytes())?;
    outbox.push_bytes(&behind_name(field))?;
    Ok(())
}

/// The bytes after a column's name: the zero byte that ends the name, and the column's numbers. An
/// absent table or column is 0.
fn behind_name(field: &FieldInfo) -> [u8; 19]
    ensures { field_description (description_of field.now) ≡ field.now.name ++ result }
{
    column_bytes(
        field.table_id().unwrap_or(0),
        field.column_id().unwrap_or(0),
        field.datatype().oid(),
        field.type_size(),
        field.type_modifier(),
        field.format().value(),
    )
}

/// A zero byte, Int32 table, Int16 column, Int32 type, Int16 size, Int32 modifier, Int16 format.
fn column_bytes(
    table: i32,
    column: i16,
    type_id: u32,
    size: i16,
    modifier: i32,
    format: i16,
) -> [u8; 19]
    ensures { result ≡ 0 ∷ int32 table ++ int16 column ++ count32 type_id ++ int16 size
        ++ int32 modifier ++ int16 format }
{
    let [a, b, c, d] = table.to_be_bytes();
    let [e, f] = column.to_be_bytes();
    let [g, h, i, j] = type_id.to_be_bytes();
    let [k, l] = size.to_be_bytes();
    let [m, n, o, p] = modifier.to_be_bytes();
    let [q, r] = format.to_be_bytes();
    [0, a, b, c, d, e, f, g, h, i, j, k, l, m, n, o, p, q, r]
}

/// The OIDs of types.
fn oids(alloc: Global, types: &[PgType]) -> Result<PgList<u32>, AllocError>
    ensures { IfOk result (λ told. told ≡ map oid_of types.now) }
{
    let mut told = PgList::new(alloc);
    for ty in types {
        told.push(ty.oid())?;
    }
    Ok(told)
}

/// Appends ParameterDescription.
fn send_parameter_description(
    alloc: Global,
    outbox: &mut Outbox,
    types: &[PgType],
) -> Result<(), AllocError>
    requires { IsEncodable (parameter_description types.now) }
    ensures ok { OnOk result
        (outbox.new ≡ outbox.old ++ replies_bytes (parameter_description types.now ∷ [])) }
    ensures err { OnErr result (outbox.new ≡ outbox.old) }
{
    let types = oids(alloc, types)?;
    push_reply(
        outbox,
        PgWireBackendMessage::ParameterDescription(ParameterDescription { types }),
    )
}

/// Appends the description of the columns of a statement or a portal: RowDescription, or NoData
/// where there is nothing to describe.
fn send_columns<DR: DescribeResponse>(
    alloc: Global,
    outbox: &mut Outbox,
    describe_response: &DR,
) -> Result<(), AllocError>
    requires { IsEncodable (row_description (DR.told describe_response.now).fields) }
    ensures ok { OnOk result (outbox.new
        ≡ outbox.old ++ replies_bytes (columns_reply (DR.told describe_response.now) ∷ [])) }
    ensures err { OnErr result (outbox.new ≡ outbox.old) }
{
    if describe_response.is_no_data() {
        return push_reply(outbox, PgWireBackendMessage::NoData(NoData {}));
    }
    send_row_description(alloc, outbox, describe_response.fields())
}

/// Appends the description of a statement or a portal. A statement's begins with
/// ParameterDescription. RowDescription follows, or NoData where there is nothing to describe.
/// After an error the outbox is as it was.
pub fn send_describe_response<DR: DescribeResponse>(
    alloc: Global,
    outbox: &mut Outbox,
    describe_response: &DR,
) -> Result<(), AllocError>
    requires parameters { IfSome (DR.told describe_response.now).parameters
        (λ types. IsEncodable (parameter_description types)) }
    requires fields { IsEncodable (row_description (DR.told describe_response.now).fields) }
    ensures ok { OnOk result (outbox.new
        ≡ outbox.old ++ replies_bytes (description (DR.told describe_response.now))) }
    ensures err { OnErr result (outbox.new ≡ outbox.old) }
{
    let start = outbox.len();
    if let Some(types) = describe_response.parameters() {
        send_parameter_description(alloc, outbox, types)?;
    }
    if let Err(error) = send_columns(alloc, outbox, describe_response) {
        outbox.truncate(start);
        return Err(error);
    }
    Ok(())
}

/// Appends a description, as `send_describe_response` does, and drops it. The only error is running
/// out of memory, after which the outbox is as it was.
pub fn send_described<DR: DescribeResponse + Drop>(
    alloc: Global,
    outbox: &mut Outbox,
    described: DR,
) -> Result<(), AllocError>
    requires parameters { IfSome (DR.told described).parameters
        (λ types. IsEncodable (parameter_description types)) }
    requires fields { IsEncodable (row_description (DR.told described).fields) }
    ensures ok { OnOk result (outbox.new
        ≡ outbox.old ++ replies_bytes (description (DR.told described))) }
    ensures err { OnErr result (outbox.new ≡ outbox.old) }
{
    send_describe_response(alloc, outbox, &described)
}

/// Appends a description, or returns the error that came in its place. An error appends nothing.
pub fn send_told<DR: DescribeResponse + Drop>(
    alloc: Global,
    outbox: &mut Outbox,
    told: Result<DR, PgWireError>,
) -> Result<(), PgWireError>
    requires parameters { IfOk told (λ d. IfSome (DR.told d).parameters
        (λ types. IsEncodable (parameter_description types))) }
    requires fields { IfOk told (λ d. IsEncodable (row_description (DR.told d).fields)) }
    requires answerable { IfErr told IsAnswerable }
    ensures sent { IsToldSo (λ d. description (DR.told d)) told outbox.old outbox.new result }
    ensures answerable { IfErr result IsAnswerable }
    ensures waiting { OnErr result (outbox.new ≡ outbox.old) }
{
    send_described(alloc, outbox, told?)?;
    Ok(())
}

/// Sends the rows that it receives, each as a reply.
#[derive(Drop)]
struct RowSender<'a> {
    outbox: &'a mut Outbox,
}

impl<'a> RowReceiver for RowSender<'a> {
    ghost with_rows = { λ sender rows. record sender {
      outbox = record sender.outbox {
        now = sender.outbox.now ++ replies_bytes (row_replies rows);
      };
    } };

    /// Appends DataRow.
    #[inline(always)]
    fn receive(&mut self, _alloc: Global, row: &DataRow) -> Result<(), AllocError> {
        self.outbox.push_row(row)
    }

    ghost none = { λ sender. ap (λ now. record sender
        { outbox = record sender.outbox { now = now } })
        (append-nil sender.outbox.now) };

    ghost more = { λ sender rows behind. ap
        (λ now. record sender { outbox = record sender.outbox { now = now } })
        (rows_behind sender.outbox.now rows behind) };
}

/// Appends the next page of a response, of which `delivered` rows were sent before: at most
/// `max_rows` DataRows, or all that are left where `max_rows` is below 1. PortalSuspended follows
/// where the limit was reached, and else CommandComplete with the tag and the number of all rows
/// delivered. The errors are those of `send_partial_query_response`.
pub fn send_next_page<R: RowSource>(
    alloc: Global,
    outbox: &mut Outbox,
    results: &mut QueryResponse<R>,
    delivered: u64,
    max_rows: i32,
) -> Result<DeliveredPage, PgWireError>
    requires { IsTag results.old.command_tag }
    ensures page { IfOk result (λ page. IsSentPage (told_rows R.items results.old)
        (item_page max_rows (R.items results.old.data_rows)).ending
        page.suspended (told_rows R.items results.new)) }
    ensures delivered { IfOk result (λ page. page.delivered ≡ delivered_after delivered
        (length (item_page max_rows (R.items results.old.data_rows)).rows)) }
    ensures replied { OnOk result (outbox.new ≡ outbox.old ++ replies_bytes
        (page_replies results.old.command_tag
        (delivered_after delivered
        (length (item_page max_rows (R.items results.old.data_rows)).rows))
        (item_page max_rows (R.items results.old.data_rows)).rows
        (item_page max_rows (R.items results.old.data_rows)).ending)) }
    ensures fewer { OnOk result
        (length (item_page max_rows (R.items results.old.data_rows)).rows < 2 ^ 64) }
    ensures refused { IfErr result (λ e. (e ≡ PgWireError.NoMemory)
        ⊎ IsMetError (told_rows R.items results.old)
        (item_page max_rows (R.items results.old.data_rows)).ending
        e (told_rows R.items results.new) outbox.old outbox.new) }
    ensures answerable { IfErr result IsAnswerableItem }
    ensures tag { results.new.command_tag ≡ results.old.command_tag }
    ensures fields { arc_value results.new.row_schema ≡ arc_value results.old.row_schema }
    ensures left { OnErr result
        (IsRest (told_rows R.items results.old) (told_rows R.items results.new)) }
    ensures begins { length outbox.old ≤ length outbox.new }
    ensures kept { take (length outbox.old) outbox.new ≡ outbox.old }
{
    let page = deliver_to(alloc, outbox, &mut results.data_rows, delivered, max_rows)?;
    // The outbox holds at least one byte for each row, and its length is a usize. So the number of
    // the page's rows is below 2^64.
    let _waiting = outbox.len();
    send_page_end(alloc, outbox, results.command_tag.as_str(), page)?;
    Ok(page)
}

/// Appends the rows of the next page, as `deliver_page` delivers them.
fn deliver_to<R: RowSource>(
    alloc: Global,
    outbox: &mut Outbox,
    rows: &mut R,
    delivered: u64,
    max_rows: i32,
) -> Result<DeliveredPage, PgWireError>
    ensures ended { IfOk result (λ page. EndsPage (item_page max_rows (R.items rows.old)).ending
        page.suspended (R.items rows.new)) }
    ensures delivered { IfOk result (λ page. page.delivered
        ≡ delivered_after delivered (length (item_page max_rows (R.items rows.old)).rows)) }
    ensures sent { OnOk result (outbox.new ≡ outbox.old
        ++ replies_bytes (row_replies (item_page max_rows (R.items rows.old)).rows)) }
    ensures taken { OnOk result (R.items rows.old
        ≡ map Ok (item_page max_rows (R.items rows.old)).rows ++ R.items rows.new) }
    ensures cut_short { IfErr result (λ error. (received : List DataRow)
        × CutsPage max_rows (R.items rows.old) received error (R.items rows.new)
        × (outbox.new ≡ outbox.old ++ replies_bytes (row_replies received))) }
    ensures own { IfErr result IsAnswerableItem }
{
    let mut sender = RowSender { outbox };
    let page = deliver_page(alloc, rows, &mut sender, delivered, max_rows)?;
    Ok(page)
}

/// Appends the end of a page: PortalSuspended where its limit was reached, or else CommandComplete
/// with the command and the number of rows delivered.
fn send_page_end(
    alloc: Global,
    outbox: &mut Outbox,
    command: &str,
    page: DeliveredPage,
) -> Result<(), AllocError>
    requires { IsTag command.now }
    ensures ok { OnOk result (outbox.new ≡ outbox.old
        ++ replies_bytes (page_end command.now page.delivered page.suspended)) }
    ensures err { OnErr result (outbox.new ≡ outbox.old) }
{
    if page.suspended {
        let suspended = PgWireBackendMessage::PortalSuspended(PortalSuspended {});
        return push_reply(outbox, suspended);
    }
    send_done(alloc, outbox, command, page.delivered)
}

/// Appends a page of rows: at most `max_rows` DataRows, or all that are left where `max_rows` is
/// below 1. Where the limit was reached, PortalSuspended follows, and the result is true. Else
/// CommandComplete follows with the tag and the number of these rows, and the result is false. An
/// error in the place of a row is returned and consumed, and the rows before it stay in the outbox.
/// After NoMemory some of the rows may stand there, and are consumed. What waited in the outbox
/// before stays in front, after an error too.
pub fn send_partial_query_response<R: RowSource>(
    alloc: Global,
    outbox: &mut Outbox,
    results: &mut QueryResponse<R>,
    max_rows: i32,
) -> Result<bool, PgWireError>
    requires { IsTag results.old.command_tag }
    ensures page { IfOk result (λ suspended. IsSentPage (told_rows R.items results.old)
        (item_page max_rows (R.items results.old.data_rows)).ending
        suspended (told_rows R.items results.new)) }
    ensures replied { OnOk result (outbox.new ≡ outbox.old ++ replies_bytes
        (page_replies results.old.command_tag
        (length (item_page max_rows (R.items results.old.data_rows)).rows)
        (item_page max_rows (R.items results.old.data_rows)).rows
        (item_page max_rows (R.items results.old.data_rows)).ending)) }
    ensures refused { IfErr result (λ e. (e ≡ PgWireError.NoMemory)
        ⊎ IsMetError (told_rows R.items results.old)
        (item_page max_rows (R.items results.old.data_rows)).ending
        e (told_rows R.items results.new) outbox.old outbox.new) }
    ensures answerable { IfErr result IsAnswerableItem }
    ensures tag { results.new.command_tag ≡ results.old.command_tag }
    ensures fields { arc_value results.new.row_schema ≡ arc_value results.old.row_schema }
    ensures left { OnErr result
        (IsRest (told_rows R.items results.old) (told_rows R.items results.new)) }
    ensures begins { length outbox.old ≤ length outbox.new }
    ensures kept { take (length outbox.old) outbox.new ≡ outbox.old }
{
    Ok(send_next_page(alloc, outbox, results, 0, max_rows)?.suspended)
}

/// Appends all rows of a query: RowDescription where `send_describe` is true, a DataRow for each
/// row, and CommandComplete with the tag and the number of rows. An error in the place of a row is
/// returned, and the replies before it stay in the outbox. After NoMemory any part of the replies
/// may stand there. What waited in the outbox before stays in front, after an error too.
pub fn send_query_response<R: RowSource>(
    alloc: Global,
    outbox: &mut Outbox,
    results: QueryResponse<R>,
    send_describe: bool,
) -> Result<(), PgWireError>
    requires fields { IsEncodable (row_description (arc_value results.row_schema)) }
    requires tag { IsTag results.command_tag }
    ensures sent { (now : TransactionStatus) → IsAllSent
        (sent_rows_behind (rows_front send_describe (told_rows R.items results)) now
        (told_rows R.items results)) outbox.old outbox.new result }
    ensures answerable { IfErr result IsAnswerableItem }
    ensures kept { take (length outbox.old) outbox.new ≡ outbox.old }
{
    let mut results = results;
    if send_describe {
        send_row_description(alloc, outbox, results.row_schema.as_slice())?;
    }
    send_partial_query_response(alloc, outbox, &mut results, 0)?;
    Ok(())
}

/// The next data of a COPY, and after the last of them the trailer of binary data. An error takes
/// nothing.
fn next_data<C: CopySource>(
    alloc: Global,
    resp: &mut CopyResponse<C>,
) -> Result<Option<Result<CopyData, PgWireError>>, AllocError>
    ensures next { IsNextCopy (copy_items (told_copy C.items resp.old)) result
        (copy_items (told_copy C.items resp.new)) }
    ensures sendable { IfOk result (λ found. IfSome found IsSendableCopy) }
    ensures format { resp.new.format ≡ resp.old.format }
    ensures columns { resp.new.columns ≡ resp.old.columns }
{
    match resp.data_stream.next()? {
        Some(item) => Ok(Some(item)),
        None => {
            if !resp.trailer_left {
                return Ok(None);
            }
            let trailer = finish_copy_binary(alloc)?;
            resp.trailer_left = false;
            Ok(Some(Ok(trailer)))
        }
    }
}

/// Appends data of a COPY and counts them: empty data are skipped, and the trailer isn't counted.
fn push_data(outbox: &mut Outbox, copied: &CopyData, count: usize) -> Result<usize, AllocError>
    requires encodable { IsEncodable (server.CopyData copied.now) }
    requires fewer { count ≤ length outbox.old }
    ensures pushed { OnOk result
        (outbox.new ≡ outbox.old ++ replies_bytes (copy_replies (not_empty (copied.now ∷ [])))) }
    ensures err { OnErr result (outbox.new ≡ outbox.old) }
    ensures counted { IfOk result (λ all. all ≡ count + copy_count (not_empty (copied.now ∷ []))) }
    ensures fewer { IfOk result (λ all. all ≤ length outbox.new) }
{
    let bytes = copied.payload.as_slice();
    if bytes.is_empty() {
        return Ok(count);
    }
    let is_trailer = bytes == [255, 255].as_slice();
    outbox.push_copied(copied)?;
    // The count is at most the outbox's length, which is a usize. So the count doesn't wrap.
    let _waiting = outbox.len();
    if is_trailer {
        return Ok(count);
    }
    Ok(count + 1)
}

/// Appends the data of a COPY, and returns how many of them count. Data that `next_copied` writes
/// share one buffer.
fn send_copy_data<C: CopySource>(
    alloc: Global,
    outbox: &mut Outbox,
    resp: &mut CopyResponse<C>,
) -> Result<usize, PgWireError>
    ensures sent { IfOk result
        (IsSentData (copy_items (told_copy C.items resp.old)) outbox.old outbox.new) }
    ensures refused { IfErr result (λ e. (e ≡ PgWireError.NoMemory)
        ⊎ IsRefusedData (copy_items (told_copy C.items resp.old)) outbox.old outbox.new e) }
    ensures answerable { IfErr result IsAnswerableItem }
    ensures kept { take (length outbox.old) outbox.new ≡ outbox.old }
{
    let mut copied = CopyData {
        payload: PgBytes::from_vec(Vec::new(alloc)),
    };
    send_copy_through(alloc, outbox, resp, &mut copied)
}

/// Appends the data of a COPY, as `send_copy_data` does. `lent` is the buffer for `next_copied`.
#[inline(always)]
fn send_copy_through<C: CopySource>(
    alloc: Global,
    outbox: &mut Outbox,
    resp: &mut CopyResponse<C>,
    lent: &mut CopyData,
) -> Result<usize, PgWireError>
    ensures sent { IfOk result
        (IsSentData (copy_items (told_copy C.items resp.old)) outbox.old outbox.new) }
    ensures refused { IfErr result (λ e. (e ≡ PgWireError.NoMemory)
        ⊎ IsRefusedData (copy_items (told_copy C.items resp.old)) outbox.old outbox.new e) }
    ensures answerable { IfErr result IsAnswerableItem }
    ensures kept { take (length outbox.old) outbox.new ≡ outbox.old }
{
    let mut count = 0;
    loop {
        // Most sources write their data into the lent buffer.
        if resp.data_stream.next_copied(lent)? {
            count = push_data(outbox, lent, count)?;
            continue;
        }
        match next_data(alloc, resp)? {
            None => return Ok(count),
            Some(Err(error)) => return Err(error),
            Some(Ok(copied)) => count = push_data(outbox, &copied, count)?,
        }
    }
}

/// Appends the end of a COPY: CopyDone, and CommandComplete with the number of data.
fn send_copy_end(alloc: Global, outbox: &mut Outbox, count: usize) -> Result<(), AllocError>
    ensures ok { OnOk result (outbox.new ≡ outbox.old ++ replies_bytes (copy_end count)) }
    ensures kept { take (length outbox.old) outbox.new ≡ outbox.old }
{
    push_reply(outbox, PgWireBackendMessage::CopyDone(CopyDone {}))?;
    send_done(alloc, outbox, "COPY", count as u64)?;
    Ok(())
}

/// Appends CopyInResponse. After an error the outbox is as it was.
pub fn send_copy_in_response<C: CopySource>(
    alloc: Global,
    outbox: &mut Outbox,
    resp: &CopyResponse<C>,
) -> Result<(), AllocError>
    requires { resp.now.columns ≤ 32767 }
    ensures ok { OnOk result (outbox.new
        ≡ outbox.old ++ replies_bytes (copy_in_reply (told_copy C.items resp.now) ∷ [])) }
    ensures err { OnErr result (outbox.new ≡ outbox.old) }
{
    let head = CopyInResponse {
        format: resp.format,
        columns: resp.columns as i16,
        column_formats: resp.column_formats(alloc)?,
    };
    push_reply(outbox, PgWireBackendMessage::CopyInResponse(head))
}

/// Appends CopyInResponse, as `send_copy_in_response` does, and drops the COPY. The only error is
/// running out of memory, after which the outbox is as it was.
pub fn send_copy_in<C: CopySource>(
    alloc: Global,
    outbox: &mut Outbox,
    resp: CopyResponse<C>,
) -> Result<(), AllocError>
    requires { resp.columns ≤ 32767 }
    ensures ok { OnOk result (outbox.new
        ≡ outbox.old ++ replies_bytes (copy_in_reply (told_copy C.items resp) ∷ [])) }
    ensures err { OnErr result (outbox.new ≡ outbox.old) }
{
    send_copy_in_response(alloc, outbox, &resp)
}

/// Appends CopyOutResponse.
fn send_copy_out_head<C: CopySource>(
    alloc: Global,
    outbox: &mut Outbox,
    resp: &CopyResponse<C>,
) -> Result<(), AllocError>
    requires { resp.now.columns ≤ 32767 }
    ensures ok { OnOk result (outbox.new
        ≡ outbox.old ++ replies_bytes (copy_out_reply (told_copy C.items resp.now) ∷ [])) }
    ensures err { OnErr result (outbox.new ≡ outbox.old) }
{
    let head = CopyOutResponse {
        format: resp.format,
        columns: resp.columns as i16,
        column_formats: resp.column_formats(alloc)?,
    };
    push_reply(outbox, PgWireBackendMessage::CopyOutResponse(head))
}

/// Appends CopyBothResponse.
fn send_copy_both_head<C: CopySource>(
    alloc: Global,
    outbox: &mut Outbox,
    resp: &CopyResponse<C>,
) -> Result<(), AllocError>
    requires { resp.now.columns ≤ 32767 }
    ensures ok { OnOk result (outbox.new
        ≡ outbox.old ++ replies_bytes (copy_both_reply (told_copy C.items resp.now) ∷ [])) }
    ensures err { OnErr result (outbox.new ≡ outbox.old) }
{
    let head = CopyBothResponse {
        format: resp.format,
        columns: resp.columns as i16,
        column_formats: resp.column_formats(alloc)?,
    };
    push_reply(outbox, PgWireBackendMessage::CopyBothResponse(head))
}

/// Appends a COPY to the client: CopyOutResponse, a CopyData for each data that isn't empty,
/// CopyDone, and CommandComplete `COPY n`, where n is the number of CopyData without the trailer.
/// An error in the place of data is returned, and the replies before it stay in the outbox. After
/// NoMemory any part of the replies may stand there. What waited in the outbox before stays in
/// front, after an error too.
pub fn send_copy_out_response<C: CopySource>(
    alloc: Global,
    outbox: &mut Outbox,
    resp: CopyResponse<C>,
) -> Result<(), PgWireError>
    requires { resp.columns ≤ 32767 }
    ensures sent { (now : TransactionStatus) → IsAllSent (sent_copy now false
        (copy_out_reply (told_copy C.items resp)) (told_copy C.items resp)) outbox.old outbox.new
        result }
    ensures answerable { IfErr result IsAnswerableItem }
    ensures kept { take (length outbox.old) outbox.new ≡ outbox.old }
{
    let mut resp = resp;
    send_copy_out_head(alloc, outbox, &resp)?;
    let count = send_copy_data(alloc, outbox, &mut resp)?;
    send_copy_end(alloc, outbox, count)?;
    Ok(())
}

/// Appends a COPY both ways: CopyBothResponse, and then the same as `send_copy_out_response`, with
/// the same errors.
pub fn send_copy_both_response<C: CopySource>(
    alloc: Global,
    outbox: &mut Outbox,
    resp: CopyResponse<C>,
) -> Result<(), PgWireError>
    requires { resp.columns ≤ 32767 }
    ensures sent { (now : TransactionStatus) → IsAllSent (sent_copy now true
        (copy_both_reply (told_copy C.items resp)) (told_copy C.items resp)) outbox.old outbox.new
        result }
    ensures answerable { IfErr result IsAnswerableItem }
    ensures kept { take (length outbox.old) outbox.new ≡ outbox.old }
{
    let mut resp = resp;
    send_copy_both_head(alloc, outbox, &resp)?;
    let count = send_copy_data(alloc, outbox, &mut resp)?;
    send_copy_end(alloc, outbox, count)?;
    Ok(())
}
