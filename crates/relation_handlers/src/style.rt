//! The interval style that a session's startup parameters name.

ghost use Rattle.std.specs.Prelude.{◌≡◌, Ok, Err, IfOk, IfErr, codes, unwrap_or};
ghost use Rattle.std.specs.FinMap as fin;
ghost use Rattle.pg_text.specs.Words.{interval_style_of};
ghost use Rattle.pg_results.specs.declared.error.PgWireError.TheVariants as wire;
ghost use Rattle.pg_results.specs.Clients.{HasShortMetadata};
ghost use Rattle.pg_results.specs.Rows.{IsAnswerableItem};
ghost use Rattle.pg_results.specs.Texts.{IsShortText};
ghost use Rattle.pg_results.specs.Told.{IsOutcome};
ghost use Rattle.relation_tables.specs.RelationHandler.{or_refused, session_style};
ghost use Rattle.relation_handlers.specs.Told.{told_style};

use pg_messages::PgStr;
use pg_portal::{ClientInfo, PgWireError};
use pg_text::{CellError, IntervalStyle};
use std::alloc::{AllocError, Global};
use std::marker::Model;

/// A session's interval style, judged once: the style, or the text that names none.
#[derive(Drop)]
pub struct SessionStyle {
    style: Result<IntervalStyle, PgStr>,
}

impl Model for SessionStyle {
    ghost use Rattle.std.specs.Prelude.{Result, IfErr};
    ghost use Rattle.pg_text.specs.declared.format.interval_style.IntervalStyle.{IntervalStyle};
    ghost use Rattle.pg_results.specs.declared.error.PgWireError.{PgWireError};
    ghost use Rattle.pg_results.specs.Texts.{IsShortText};
    ghost use Rattle.relation_handlers.specs.Told.{told_style};

    ghost Value = { Result IntervalStyle PgWireError };

    ghost view = { λ s. told_style s.style };

    ghost invariant = { λ s. IfErr s.style IsShortText };
}

impl SessionStyle {
    /// The style of a client: that of its startup parameter `intervalstyle`, and `postgres` without
    /// one.
    pub fn of(alloc: Global, client: &ClientInfo) -> Result<SessionStyle, AllocError>
        requires { HasShortMetadata client.now }
        ensures { IfOk result (λ style. style ≡ session_style client.now) }
    {
        let name = PgStr::copy_of(alloc, "intervalstyle")?;
        SessionStyle::named(alloc, text_under(client, &name))
    }

    /// The style that a text names. A text that names one takes no memory.
    pub(crate) fn named(alloc: Global, text: &str) -> Result<SessionStyle, AllocError>
        requires { IsShortText text.now }
        ensures { IfOk result (λ style.
            style ≡ or_refused text.now (interval_style_of text.now)) }
    {
        let style = judged(alloc, text)?;
        Ok(SessionStyle { style })
    }

    /// The session style that is this style.
    #[inline(always)]
    pub(crate) fn known(style: IntervalStyle) -> SessionStyle
        ensures { result ≡ Ok style }
    {
        SessionStyle { style: Ok(style) }
    }

    /// The style, or the text that names none.
    #[inline(always)]
    pub(crate) fn or_text(&self) -> Result<IntervalStyle, &PgStr>
        ensures known { IfOk result (λ style. self.now ≡ Ok style) }
        ensures refused { IfErr result (λ text.
            self.now ≡ Err (wire.InvalidOptionValue text.now)) }
        ensures short { IfErr result (λ text. IsShortText text.now) }
    {
        match &self.style {
            Ok(style) => Ok(*style),
            Err(text) => Err(text),
        }
    }

    /// The style, or `InvalidOptionValue` with the text that names none.
    #[inline]
    pub fn get(&self, alloc: Global) -> Result<IntervalStyle, PgWireError>
        ensures outcome { IsOutcome self.now result }
        ensures answerable { IfErr result IsAnswerableItem }
    {
        match &self.style {
            Ok(style) => Ok(*style),
            Err(text) => Err(refusal(alloc, text)?),
        }
    }
}

/// The error for a text that names no style.
#[cold]
#[inline(never)]
pub(crate) fn refusal(alloc: Global, text: &PgStr) -> Result<PgWireError, AllocError>
    ensures { IfOk result (λ error. error ≡ wire.InvalidOptionValue text.now) }
{
    let text = PgStr::copy_of(alloc, text.as_str())?;
    Ok(PgWireError::InvalidOptionValue(text))
}

/// The startup parameter of this name, and `postgres` without one.
fn text_under<'c>(client: &'c ClientInfo, name: &PgStr) -> &'c str
    ensures { result.now ≡ unwrap_or (fin.get client.now.metadata name.now) (codes "postgres") }
{
    match client.metadata.get(name) {
        Some(text) => text.as_str(),
        None => "postgres",
    }
}

/// The style that a text names, or the text where it names none.
fn judged(alloc: Global, text: &str) -> Result<Result<IntervalStyle, PgStr>, AllocError>
    ensures told { IfOk result (λ style. told_style style
        ≡ or_refused text.now (interval_style_of text.now)) }
    ensures refused { IfOk result (λ style. IfErr style (λ refused. refused ≡ text.now)) }
{
    match IntervalStyle::try_from_text(alloc, text) {
        Ok(style) => Ok(Ok(style)),
        Err(CellError::InvalidOptionValue(refused)) => Ok(Err(refused)),
        Err(_) => Err(AllocError),
    }
}
