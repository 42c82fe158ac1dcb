//! The options of sessions, made once for each interval style and shared by the queries in it.

ghost use Rattle.std.specs.Prelude.{◌≡◌, IfOk};
ghost use Rattle.std.specs.Arc.{arc_value};
ghost use Rattle.pg_types.specs.Options.{default_options};
ghost use Rattle.pg_text.specs.Words.{interval_style_name};
ghost use Rattle.pg_text.specs.declared.format.interval_style.IntervalStyle.TheVariants as interval_style;
ghost use Rattle.pg_results.specs.Texts.{IsShortText};
ghost use Rattle.relation_handlers.specs.Made.{style_in};

use crate::style::SessionStyle;
use pg_messages::{PgList, PgStr};
use pg_text::{FormatOptions, IntervalStyle};
use std::alloc::{AllocError, Global};
use std::marker::Model;
use std::sync::Arc;

/// The options of a query, and the style that they name, judged once.
#[derive(Drop)]
pub(crate) struct Settings {
    options: Arc<FormatOptions>,
    style: SessionStyle,
}

impl Model for Settings {
    ghost use Rattle.std.specs.Prelude.{◌≡◌};
    ghost use Rattle.std.specs.Arc.{arc_value};
    ghost use Rattle.pg_types.specs.declared.format.FormatOptions.{FormatOptions};
    ghost use Rattle.pg_results.specs.Texts.{IsShortText};
    ghost use Rattle.relation_handlers.specs.Made.{style_in};

    ghost Value = { FormatOptions };

    ghost view = { λ s. arc_value s.options };

    ghost invariant = { λ s. (s.style ≡ style_in (arc_value s.options))
        × IsShortText (arc_value s.options).interval_style };
}

impl Settings {
    /// The options and their style, apart.
    #[inline(always)]
    pub(crate) fn into_parts(self) -> (Arc<FormatOptions>, SessionStyle)
        ensures options { arc_value result.0 ≡ self }
        ensures style { result.1 ≡ style_in self }
        ensures short_style { IsShortText self.interval_style }
    {
        let Settings { options, style } = self;
        (options, style)
    }
}

/// The default options, but with an interval style by its exact name.
#[derive(Drop)]
pub(crate) struct StyledOptions {
    options: Arc<FormatOptions>,
    style: IntervalStyle,
}

impl Model for StyledOptions {
    ghost use Rattle.std.specs.Prelude.{◌≡◌};
    ghost use Rattle.std.specs.Arc.{arc_value};
    ghost use Rattle.pg_types.specs.Options.{default_options};
    ghost use Rattle.pg_text.specs.Words.{interval_style_name};
    ghost use Rattle.pg_text.specs.declared.format.interval_style.IntervalStyle.{IntervalStyle};

    ghost Value = { IntervalStyle };

    ghost view = { λ s. s.style };

    ghost invariant = { λ s. arc_value s.options
        ≡ record default_options { interval_style = interval_style_name s.style } };
}

impl StyledOptions {
    /// The default options in this style.
    fn new(alloc: Global, style: IntervalStyle) -> Result<StyledOptions, AllocError>
        ensures { IfOk result (λ styled. styled ≡ style) }
    {
        let options = options_in(alloc, name_of(style))?;
        Ok(StyledOptions { options, style })
    }

    /// The name of the style.
    fn name(&self) -> &str
        ensures { result.now ≡ interval_style_name self.now }
    {
        self.options.interval_style.as_str()
    }

    /// The options and the style. It takes no memory.
    #[inline(always)]
    fn settings(&self) -> Result<Settings, AllocError>
        ensures { IfOk result (λ settings. settings
            ≡ record default_options { interval_style = interval_style_name self.now }) }
    {
        Ok(Settings {
            options: self.options.clone()?,
            style: SessionStyle::known(self.style),
        })
    }
}

/// The options in each of the four styles, by its exact name.
#[derive(Drop)]
pub(crate) struct SharedOptions {
    // those in `postgres`, the style of a session that names none
    pub(crate) postgres: StyledOptions,
    others: PgList<StyledOptions>,
}

impl SharedOptions {
    /// The options in the four styles.
    pub(crate) fn new(alloc: Global) -> Result<SharedOptions, AllocError>
        ensures { IfOk result (λ shared. shared.postgres ≡ interval_style.Postgres) }
    {
        let others = other_options(alloc)?;
        let postgres = StyledOptions::new(alloc, IntervalStyle::Postgres)?;
        Ok(SharedOptions { postgres, others })
    }

    /// The settings of a session that names no style. It takes no memory.
    #[inline(always)]
    pub(crate) fn unnamed(&self) -> Result<Settings, AllocError>
        requires { self.now.postgres ≡ interval_style.Postgres }
        ensures { IfOk result (λ settings. settings ≡ default_options) }
    {
        self.postgres.settings()
    }

    /// The settings of a session that names this style. Where that is one of the four by its exact
    /// name, the settings are shared, which takes no memory. Those of another have memory of their
    /// own.
    pub(crate) fn named(&self, alloc: Global, text: &str) -> Result<Settings, AllocError>
        requires { IsShortText text.now }
        ensures { IfOk result (λ settings.
            settings ≡ record default_options { interval_style = text.now }) }
    {
        if self.postgres.name() == text {
            return self.postgres.settings();
        }
        for styled in self.others.as_slice() {
            if styled.name() == text {
                return styled.settings();
            }
        }
        let style = SessionStyle::named(alloc, text)?;
        let options = options_in(alloc, text)?;
        Ok(Settings { options, style })
    }
}

/// The options in the styles other than `postgres`.
fn other_options(alloc: Global) -> Result<PgList<StyledOptions>, AllocError> {
    let mut others = PgList::new(alloc);
    push_styled(alloc, &mut others, IntervalStyle::ISO8601)?;
    push_styled(alloc, &mut others, IntervalStyle::SQLStandard)?;
    push_styled(alloc, &mut others, IntervalStyle::PostgresVerbose)?;
    Ok(others)
}

/// Appends the options in a style.
fn push_styled(
    alloc: Global,
    others: &mut PgList<StyledOptions>,
    style: IntervalStyle,
) -> Result<(), AllocError> {
    others.push(StyledOptions::new(alloc, style)?)
}

/// The name of a style.
fn name_of(style: IntervalStyle) -> &'static str
    ensures { result.now ≡ interval_style_name style }
{
    match style {
        IntervalStyle::Postgres => "postgres",
        IntervalStyle::ISO8601 => "iso_8601",
        IntervalStyle::SQLStandard => "sql_standard",
        IntervalStyle::PostgresVerbose => "postgres_verbose",
    }
}

/// The default options, but with the style of this text, in memory of their own.
fn options_in(alloc: Global, style: &str) -> Result<Arc<FormatOptions>, AllocError>
    ensures { IfOk result (λ options.
        arc_value options ≡ record default_options { interval_style = style.now }) }
{
    let mut options = FormatOptions::new_default(alloc)?;
    options.interval_style = PgStr::copy_of(alloc, style)?;
    Ok(Arc::new(alloc, options)?)
}
