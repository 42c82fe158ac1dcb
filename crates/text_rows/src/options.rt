// Rows on options, types and formats.
ghost use Rattle.std.specs.Prelude.{◌≡◌, ◌↔◌, IsTrue};
ghost use Rattle.pg_types.specs.Options.{options_cmp};

use crate::told::{show_named, show_options};
use crate::{cells, cut};
use pg_messages::PgStr;
use pg_text::{
    ByteaOutput, DateStyle, DateStyleDisplayStyle, DateStyleOrder, FieldFormat, FormatOptions,
    IntervalStyle, PgType,
};
use std::alloc::{AllocError, Global};
use std::cmp::Ordering;
use std::collections::BTreeMap;
use std::io;

/// Prints the answer to a row on options, or to one on cells.
pub(crate) fn answer(rt: &HostRuntime, word: &str, fields: &str) -> io::Result<()> {
    match word {
        "default" => default_options(rt),
        "client" => client_options(rt, fields, false),
        "compare" => client_options(rt, fields, true),
        "first" => first_values(rt),
        "interval_style" => show_named(rt, IntervalStyle::try_from_text(rt.alloc(), fields)),
        "bytea_output" => show_named(rt, ByteaOutput::try_from_text(rt.alloc(), fields)),
        "order" => show_named(rt, DateStyleOrder::try_from_text(rt.alloc(), fields)),
        "display" => show_named(rt, DateStyleDisplayStyle::try_from_text(rt.alloc(), fields)),
        "date" => date(rt, fields),
        "type" => type_of(rt, fields),
        "format" => format_of(rt, fields),
        _ => cells::answer(rt, word, fields),
    }
}

fn default_options(rt: &HostRuntime) -> io::Result<()> {
    let options = FormatOptions::new_default(rt.alloc())?;
    show_copy(rt, &options)
}

fn show_copy(rt: &HostRuntime, options: &FormatOptions) -> io::Result<()> {
    let copy = options.copy_of(rt.alloc())?;
    show_options(rt, &copy)
}

/// Prints the options of parameters, or how they compare with the default options.
fn client_options(rt: &HostRuntime, fields: &str, is_compared: bool) -> io::Result<()> {
    let options = client_of(rt.alloc(), fields)?;
    if is_compared {
        show_beside_default(rt, &options)
    } else {
        show_options(rt, &options)
    }
}

/// The options of parameters, which are names and values in turn.
fn client_of(alloc: Global, fields: &str) -> Result<FormatOptions, AllocError> {
    let parameters = parameters(alloc, fields)?;
    FormatOptions::from_client_metadata(alloc, &parameters)
}

/// Prints how the default options are ordered against others, and whether they are equal.
fn show_beside_default(rt: &HostRuntime, options: &FormatOptions) -> io::Result<()> {
    let first = FormatOptions::new_default(rt.alloc())?;
    show_compared(
        rt,
        order_between(&first, options),
        are_equal(&first, options),
    )
}

fn show_compared(rt: &HostRuntime, order: Ordering, are_equal: bool) -> io::Result<()> {
    println!(rt; "{order:?} {are_equal}")
}

/// `==` is equality of the five fields.
fn are_equal(a: &FormatOptions, b: &FormatOptions) -> bool
    ensures { IsTrue result ↔ (a.now ≡ b.now) }
{
    a == b
}

/// The order goes by the fields, from the first to the last.
fn order_between(a: &FormatOptions, b: &FormatOptions) -> Ordering
    ensures { result ≡ options_cmp a.now b.now }
{
    a.cmp(b)
}

fn parameters(alloc: Global, fields: &str) -> Result<BTreeMap<PgStr, PgStr>, AllocError> {
    let mut map = BTreeMap::new(alloc);
    for field in fields.split('|') {
        put(alloc, &mut map, field)?;
    }
    Ok(map)
}

fn put(alloc: Global, map: &mut BTreeMap<PgStr, PgStr>, field: &str) -> Result<(), AllocError> {
    if let Some((name, value)) = field.split_once('=') {
        let name = PgStr::copy_of(alloc, name)?;
        map.insert(name, PgStr::copy_of(alloc, value)?)?;
    }
    Ok(())
}

/// Prints the defaults of the four.
fn first_values(rt: &HostRuntime) -> io::Result<()> {
    println!(rt;
        "{:?} {:?} {:?} {:?}",
        IntervalStyle::default(),
        ByteaOutput::default(),
        DateStyleOrder::default(),
        DateStyleDisplayStyle::default()
    )
}

/// Prints the five formats of a date style.
fn date(rt: &HostRuntime, config: &str) -> io::Result<()> {
    let style = DateStyle::new(config);
    let zone = style.full_tz_format_str(rt.alloc())?;
    let small = style.full_tz_format_smolstr(rt.alloc())?;
    show_date(rt, &style, zone.as_str(), small.as_str())
}

fn show_date(rt: &HostRuntime, style: &DateStyle, zone: &str, small: &str) -> io::Result<()> {
    println!(rt;
        "{}|{zone}|{small}|{}|{}",
        style.full_format_str(),
        style.time_tz_format_str(),
        style.date_format_str()
    )
}

/// Prints the type of a number, with its name and its number.
fn type_of(rt: &HostRuntime, oid: &str) -> io::Result<()> {
    match PgType::from_oid(oid.parse::<u32>().unwrap_or(0)) {
        Some(ty) => println!(rt; "{ty:?} {} {}", ty.name(), ty.oid()),
        None => rt.println("None"),
    }
}

/// Prints the format of a code, and its code.
fn format_of(rt: &HostRuntime, code: &str) -> io::Result<()> {
    let format = FieldFormat::from(cut(code).0.parse::<i16>().unwrap_or(0));
    println!(rt; "{format:?} {}", format.value())
}
