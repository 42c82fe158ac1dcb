// The options by which values are written as text: PostgreSQL's "Locale and Formatting" settings.
ghost use Rattle.std.specs.Prelude.{◌≡◌, IfOk, unwrap_or, codes};
ghost use Rattle.std.specs.Option.{option_copied};
ghost use Rattle.pg_types.specs.Options.{default_options, setting, IsFloatDigits};

use pg_messages::PgStr;
use std::alloc::{AllocError, Global};
use std::collections::BTreeMap;

const DEFAULT_DATE_STYLE: &str = "ISO, YMD";

/// The name of the default interval style.
pub const INTERVAL_STYLE_POSTGRES: &str = "postgres";

/// The name of the default output of byte strings.
pub const BYTEA_OUTPUT_HEX: &str = "hex";

const DEFAULT_TIME_ZONE: &str = "Etc/UTC";

const DEFAULT_FLOAT_DIGITS: i8 = 1;

/// The options of a session by which values are written as text.
#[derive(Debug, Drop, PartialEq, Eq, PartialOrd, Ord)]
pub struct FormatOptions {
    /// `DateStyle`: a display style and an order, such as `ISO, YMD`.
    pub date_style: PgStr,
    /// `IntervalStyle`: one of the four interval styles, such as `postgres`.
    pub interval_style: PgStr,
    /// `bytea_output`: `hex` or `escape`.
    pub bytea_output: PgStr,
    /// `TimeZone`: the name of a time zone.
    pub time_zone: PgStr,
    /// `extra_float_digits`: how many digits more than usual a float is written with.
    pub extra_float_digits: i8,
}

impl FormatOptions {
    /// The default options: `ISO, YMD`, `postgres`, `hex`, `Etc/UTC` and 1.
    pub fn new_default(alloc: Global) -> Result<FormatOptions, AllocError>
        ensures { IfOk result (λ options. options ≡ default_options) }
    {
        Ok(FormatOptions {
            date_style: PgStr::copy_of(alloc, DEFAULT_DATE_STYLE)?,
            interval_style: PgStr::copy_of(alloc, INTERVAL_STYLE_POSTGRES)?,
            bytea_output: PgStr::copy_of(alloc, BYTEA_OUTPUT_HEX)?,
            time_zone: PgStr::copy_of(alloc, DEFAULT_TIME_ZONE)?,
            extra_float_digits: DEFAULT_FLOAT_DIGITS,
        })
    }

    /// The options of a session with these parameters, whose names are in lower case. `datestyle`,
    /// `intervalstyle` and `bytea_output` are taken as they are, and `extra_float_digits` where it
    /// is an optional sign and digits that an i8 holds. What is absent, and the time zone, is as
    /// `new_default` gives it.
    pub fn from_client_metadata(
        alloc: Global,
        metadata_map: &BTreeMap<PgStr, PgStr>,
    ) -> Result<FormatOptions, AllocError>
        ensures date_style { IfOk result (λ options. options.date_style
            ≡ unwrap_or (setting metadata_map.now (codes "datestyle")) (codes "ISO, YMD")) }
        ensures interval_style { IfOk result (λ options. options.interval_style
            ≡ unwrap_or (setting metadata_map.now (codes "intervalstyle")) (codes "postgres")) }
        ensures bytea_output { IfOk result (λ options. options.bytea_output
            ≡ unwrap_or (setting metadata_map.now (codes "bytea_output")) (codes "hex")) }
        ensures time_zone { IfOk result (λ options. options.time_zone ≡ codes "Etc/UTC") }
        ensures float_digits { IfOk result (λ options.
            IsFloatDigits (setting metadata_map.now (codes "extra_float_digits"))
            options.extra_float_digits) }
    {
        Ok(FormatOptions {
            extra_float_digits: float_digits(setting(alloc, metadata_map, "extra_float_digits")?),
            date_style: setting_or(alloc, metadata_map, "datestyle", DEFAULT_DATE_STYLE)?,
            interval_style: setting_or(
                alloc,
                metadata_map,
                "intervalstyle",
                INTERVAL_STYLE_POSTGRES,
            )?,
            bytea_output: setting_or(alloc, metadata_map, "bytea_output", BYTEA_OUTPUT_HEX)?,
            time_zone: PgStr::copy_of(alloc, DEFAULT_TIME_ZONE)?,
        })
    }

    /// Equal options.
    pub fn copy_of(&self, alloc: Global) -> Result<FormatOptions, AllocError>
        ensures { IfOk result (λ options. options ≡ self.now) }
    {
        Ok(FormatOptions {
            date_style: PgStr::copy_of(alloc, self.date_style.as_str())?,
            interval_style: PgStr::copy_of(alloc, self.interval_style.as_str())?,
            bytea_output: PgStr::copy_of(alloc, self.bytea_output.as_str())?,
            time_zone: PgStr::copy_of(alloc, self.time_zone.as_str())?,
            extra_float_digits: self.extra_float_digits,
        })
    }
}

/// The parameter under a name.
fn setting<'m>(
    alloc: Global,
    metadata_map: &'m BTreeMap<PgStr, PgStr>,
    name: &str,
) -> Result<Option<&'m PgStr>, AllocError>
    ensures { IfOk result (λ found. option_copied found ≡ setting metadata_map.now name.now) }
{
    let key = PgStr::copy_of(alloc, name)?;
    Ok(metadata_map.get(&key))
}

/// A copy of the parameter under a name, or of a text where there is none.
fn setting_or(
    alloc: Global,
    metadata_map: &BTreeMap<PgStr, PgStr>,
    name: &str,
    otherwise: &str,
) -> Result<PgStr, AllocError>
    ensures { IfOk result (λ text. text
        ≡ unwrap_or (setting metadata_map.now name.now) otherwise.now) }
{
    match setting(alloc, metadata_map, name)? {
        Some(text) => PgStr::copy_of(alloc, text.as_str()),
        None => PgStr::copy_of(alloc, otherwise),
    }
}

/// The number that a parameter gives, or else 1.
fn float_digits(text: Option<&PgStr>) -> i8
    ensures { IsFloatDigits (option_copied text.entry) result }
{
    match text {
        Some(text) => match text.as_str().parse::<i8>() {
            Ok(digits) => digits,
            Err(_) => DEFAULT_FLOAT_DIGITS,
        },
        None => DEFAULT_FLOAT_DIGITS,
    }
}
