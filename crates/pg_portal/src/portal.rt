//! Portals: statements with their parameters and formats, whose rows are fetched page by page.

ghost use Rattle.std.specs.Prelude.{◌≡◌, ◌↔◌, length, IfOk, IfErr, IsErrOf, OnOk};
ghost use Rattle.std.specs.Arc.{arc_value};
ghost use Rattle.pg_portal.specs.Fetching.{IsRefusedFetch, TakesInOrder, IsPage, IsRefusedPage, fetched, no_rows};
ghost use Rattle.pg_results.specs.Formats.{format_of};
ghost use Rattle.pg_portal.specs.Statements.{bound_by, cursor_of};
ghost use Rattle.pg_results.specs.Told.{told_rows};
ghost use Rattle.pg_portal.specs.Told.{Unstarted, Started, stage_of, bound_of};
ghost use Rattle.pg_results.specs.Rows.{IsAnswerableItem};
ghost use Rattle.pg_results.specs.declared.error.PgWireError.{PgWireError};
ghost use Rattle.pg_results.specs.declared.error.PgWireError.TheVariants as wire;

use pg_messages::{Bind, DataRow, PgBytes, PgList, PgStr};
use pg_results::{Format, PgWireError, QueryResponse, RowSource, StoredStatement, deliver_page};
use std::alloc::{AllocError, Global};
use std::sync::Arc;

/// The formats of a Bind's parameters, and of the columns that it asks for.
fn formats_of(alloc: Global, bind: &Bind) -> Result<(Format, Format), AllocError>
    ensures parameters { IfOk result (λ formats.
        formats.0 ≡ format_of bind.now.parameter_format_codes) }
    ensures columns { IfOk result (λ formats.
        formats.1 ≡ format_of bind.now.result_column_format_codes) }
{
    let parameters = Format::from_codes(alloc, bind.parameter_format_codes.as_slice())?;
    let columns = Format::from_codes(alloc, bind.result_column_format_codes.as_slice())?;
    Ok((parameters, columns))
}

/// How far a portal has come.
#[derive(Default, Drop)]
pub enum PortalExecutionState<R> {
    /// It wasn't started.
    #[default]
    Initial,
    /// It was started. These are the rows to come.
    Suspended(QueryResponse<R>),
    /// A page of it was complete.
    Finished,
}

/// A page of a portal.
#[derive(Drop)]
pub struct FetchResult {
    /// The rows.
    pub rows: PgList<DataRow>,
    /// The command that gave them, such as `SELECT`.
    pub command_tag: PgStr,
    /// Whether the page ended at its limit.
    pub suspended: bool,
    /// How many rows were delivered since the portal was started, with those of this page. The
    /// number saturates at the greatest u64.
    pub delivered: u64,
}

/// A statement with its parameters and formats.
#[derive(Drop)]
pub struct Portal<S, R> {
    /// Its name; the empty text is the unnamed one.
    pub name: PgStr,
    /// The statement. A later one of the same name doesn't change it.
    pub statement: Arc<StoredStatement<S>>,
    /// The formats of the parameters.
    pub parameter_format: Format,
    /// The parameters as they came, None for null.
    pub parameters: PgList<Option<PgBytes>>,
    /// The formats of the result's columns.
    pub result_column_format: Format,
    /// How far it has come.
    pub state: PortalExecutionState<R>,
    /// How many rows were delivered since it was started. Rows of a page that an error cut short
    /// aren't counted. The number saturates at the greatest u64. It means nothing before the portal
    /// is started.
    pub delivered: u64,
}

impl<S: Drop, R: RowSource> Portal<S, R> {
    /// The unstarted portal that a Bind makes of a statement. The only error is `NoMemory`.
    pub fn try_new(
        alloc: Global,
        bind: &Bind,
        statement: Arc<StoredStatement<S>>,
    ) -> Result<Portal<S, R>, PgWireError>
        ensures bound { IfOk result (λ portal. bound_of portal
            ≡ bound_by bind.now (arc_value statement)) }
        ensures unstarted { IfOk result (λ portal. stage_of R.items portal ≡ Unstarted) }
        ensures delivered { IfOk result (λ portal. portal.delivered ≡ 0) }
        ensures refusal { IfErr result (λ error. error ≡ PgWireError.NoMemory) }
    {
        let name = PgStr::copy_of(alloc, bind.portal_name.as_str())?;
        let parameters = copy_of_parameters(alloc, bind.parameters.as_slice())?;
        let (parameter_format, result_column_format) = formats_of(alloc, bind)?;
        Ok(Portal {
            name,
            statement,
            parameter_format,
            parameters,
            result_column_format,
            state: PortalExecutionState::Initial,
            delivered: 0,
        })
    }

    /// The unstarted portal of a cursor: no parameter, and text results. It takes no memory.
    pub fn new_cursor(
        alloc: Global,
        name: PgStr,
        statement: Arc<StoredStatement<S>>,
    ) -> Portal<S, R>
        ensures bound { bound_of result ≡ cursor_of name (arc_value statement) }
        ensures unstarted { stage_of R.items result ≡ Unstarted }
        ensures delivered { result.delivered ≡ 0 }
    {
        Portal {
            name,
            statement,
            parameter_format: Format::UnifiedText,
            parameters: PgList::new(alloc),
            result_column_format: Format::UnifiedText,
            state: PortalExecutionState::Initial,
            delivered: 0,
        }
    }

    /// How many parameters there are.
    pub fn parameter_len(&self) -> usize
        ensures { result ≡ length self.now.parameters }
    {
        self.parameters.len()
    }

    /// How far the portal has come. No memory is taken.
    pub fn state(&self) -> &PortalExecutionState<R>
        ensures { result.now ≡ self.now.state }
    {
        &self.state
    }

    /// Starts the portal with a response, in whatever state the portal was. No row of the response
    /// is delivered yet. No memory is taken.
    pub fn start(&mut self, response: QueryResponse<R>)
        ensures started { stage_of R.items self.new ≡ Started (told_rows R.items response) 0 }
        ensures bound { bound_of self.new ≡ bound_of self.old }
    {
        self.state = PortalExecutionState::Suspended(response);
        self.delivered = 0;
    }

    /// The next page: at most `max_rows` rows, or all that are left where `max_rows` is below 1. It
    /// is suspended where the limit was reached, even by the last row. Else it is complete.
    /// `delivered` of the page and of the portal grow by its rows. The page of a finished portal
    /// has no row, the tag `SELECT`, and the number that was delivered.
    ///
    /// `PortalNotStarted` comes exactly where the portal wasn't started. An error in the place of a
    /// row is returned. It is consumed then with the rows of this page before it, and these aren't
    /// counted. After `NoMemory` a started portal is still started, and rows of this page may be
    /// consumed. Any other portal is as it was.
    pub fn fetch(&mut self, alloc: Global, max_rows: i32) -> Result<FetchResult, PgWireError>
        ensures page { IfOk result (λ page.
            Ok page ≡ (fetched max_rows (stage_of R.items self.old)).answer) }
        ensures stage { OnOk result (stage_of R.items self.new
            ≡ (fetched max_rows (stage_of R.items self.old)).stage) }
        ensures refusal { IfErr result (IsRefusedFetch max_rows
            (stage_of R.items self.old) (stage_of R.items self.new)) }
        ensures taken { TakesInOrder
            (stage_of R.items self.old) (stage_of R.items self.new) result }
        ensures not_started { IsErrOf result wire.PortalNotStarted
            ↔ (stage_of R.items self.old ≡ Unstarted) }
        ensures bound { bound_of self.new ≡ bound_of self.old }
    {
        let delivered = self.delivered;
        let page = match &mut self.state {
            PortalExecutionState::Initial => return Err(PgWireError::PortalNotStarted),
            PortalExecutionState::Finished => return Ok(no_rows(alloc, delivered)?),
            PortalExecutionState::Suspended(response) => {
                next_page(alloc, response, delivered, max_rows)?
            }
        };
        self.delivered = page.delivered;
        if page.suspended {
            return Ok(page);
        }
        self.state = PortalExecutionState::Finished;
        Ok(page)
    }
}

/// The page of a finished portal.
fn no_rows(alloc: Global, delivered: u64) -> Result<FetchResult, AllocError>
    ensures { IfOk result (λ page. page ≡ no_rows delivered) }
{
    Ok(FetchResult {
        rows: PgList::new(alloc),
        command_tag: PgStr::copy_of(alloc, "SELECT")?,
        suspended: false,
        delivered,
    })
}

/// The next page of a response, as a list. `delivered` rows were delivered before.
fn next_page<R: RowSource>(
    alloc: Global,
    response: &mut QueryResponse<R>,
    delivered: u64,
    max_rows: i32,
) -> Result<FetchResult, PgWireError>
    ensures page { IfOk result (λ page. IsPage max_rows
        (told_rows R.items response.old) delivered (told_rows R.items response.new) page) }
    ensures refusal { IfErr result (IsRefusedPage max_rows
        (told_rows R.items response.old) delivered (told_rows R.items response.new)) }
    ensures own { IfErr result IsAnswerableItem }
{
    let command_tag = PgStr::copy_of(alloc, response.command_tag.as_str())?;
    let mut rows = PgList::new(alloc);
    let page = deliver_page(
        alloc,
        &mut response.data_rows,
        &mut rows,
        delivered,
        max_rows,
    )?;
    Ok(FetchResult {
        rows,
        command_tag,
        suspended: page.suspended,
        delivered: page.delivered,
    })
}

/// A copy of parameters.
fn copy_of_parameters(
    alloc: Global,
    parameters: &[Option<PgBytes>],
) -> Result<PgList<Option<PgBytes>>, AllocError>
    ensures { IfOk result (λ copy. copy ≡ parameters.now) }
{
    let mut copy = PgList::new(alloc);
    for parameter in parameters {
        copy.push(copy_of_parameter(alloc, parameter)?)?;
    }
    Ok(copy)
}

/// A copy of a parameter.
fn copy_of_parameter(
    alloc: Global,
    parameter: &Option<PgBytes>,
) -> Result<Option<PgBytes>, AllocError>
    ensures { IfOk result (λ copy. copy ≡ parameter.now) }
{
    match parameter {
        Some(bytes) => Ok(Some(PgBytes::copy_of(alloc, bytes.as_slice())?)),
        None => Ok(None),
    }
}
