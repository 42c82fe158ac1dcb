//! What is printed of a message: its name and its fields, the long ones by their ends.

use pg_messages::{Bind, PgBytes, PgStr, PgWireFrontendMessage, SslNegotiationKind, Startup};
use std::fmt::Display;
use std::io;

/// Prints a message.
pub fn show_message(rt: &HostRuntime, message: &PgWireFrontendMessage) -> io::Result<()> {
    rt.print(name_of(message))?;
    match message {
        PgWireFrontendMessage::Startup(m) => show_startup(rt, m),
        PgWireFrontendMessage::CancelRequest(m) => {
            print!(rt; " {}", m.pid)?;
            show_bytes(rt, m.secret_key.as_slice())
        }
        PgWireFrontendMessage::CopyData(m) => show_bytes(rt, m.payload.as_slice()),
        PgWireFrontendMessage::CopyFail(m) => show_text(rt, &m.message),
        PgWireFrontendMessage::Query(m) => show_text(rt, &m.query),
        _ => show_extended(rt, message),
    }
}

/// The name of a message's kind.
fn name_of(message: &PgWireFrontendMessage) -> &'static str {
    match message {
        PgWireFrontendMessage::Startup(_) => "Startup",
        PgWireFrontendMessage::SslNegotiation(SslNegotiationKind::PostgresSsl) => {
            "SslNegotiation PostgresSsl"
        }
        PgWireFrontendMessage::SslNegotiation(SslNegotiationKind::PostgresGss) => {
            "SslNegotiation PostgresGss"
        }
        PgWireFrontendMessage::CancelRequest(_) => "CancelRequest",
        PgWireFrontendMessage::Query(_) => "Query",
        PgWireFrontendMessage::Parse(_) => "Parse",
        PgWireFrontendMessage::Bind(_) => "Bind",
        PgWireFrontendMessage::Describe(_) => "Describe",
        PgWireFrontendMessage::Execute(_) => "Execute",
        PgWireFrontendMessage::Close(_) => "Close",
        PgWireFrontendMessage::Flush(_) => "Flush",
        PgWireFrontendMessage::PgSync(_) => "PgSync",
        PgWireFrontendMessage::Terminate(_) => "Terminate",
        PgWireFrontendMessage::CopyData(_) => "CopyData",
        PgWireFrontendMessage::CopyDone(_) => "CopyDone",
        PgWireFrontendMessage::CopyFail(_) => "CopyFail",
    }
}

fn show_extended(rt: &HostRuntime, message: &PgWireFrontendMessage) -> io::Result<()> {
    match message {
        PgWireFrontendMessage::Parse(m) => {
            show_two(rt, &m.name, &m.query)?;
            show_items(rt, m.type_oids.as_slice())
        }
        PgWireFrontendMessage::Bind(m) => show_bind(rt, m),
        PgWireFrontendMessage::Describe(m) => show_target(rt, m.target_type, &m.name),
        PgWireFrontendMessage::Execute(m) => show_execute(rt, &m.name, m.max_rows),
        PgWireFrontendMessage::Close(m) => show_target(rt, m.target_type, &m.name),
        _ => Ok(()),
    }
}

fn show_startup(rt: &HostRuntime, startup: &Startup) -> io::Result<()> {
    let pairs = startup.parameters.as_slice();
    print!(rt; " {} [{} pairs", startup.code, pairs.len())?;
    for (name, value) in first_four(pairs) {
        show_two(rt, name, value)?;
    }
    rt.print(" ]")
}

fn show_bind(rt: &HostRuntime, bind: &Bind) -> io::Result<()> {
    show_two(rt, &bind.portal_name, &bind.statement_name)?;
    show_items(rt, bind.parameter_format_codes.as_slice())?;
    show_values(rt, bind.parameters.as_slice())?;
    show_items(rt, bind.result_column_format_codes.as_slice())
}

/// Prints what a Describe or a Close is of.
fn show_target(rt: &HostRuntime, target_type: u8, name: &PgStr) -> io::Result<()> {
    print!(rt; " {target_type}")?;
    show_text(rt, name)
}

fn show_execute(rt: &HostRuntime, name: &PgStr, max_rows: i32) -> io::Result<()> {
    show_text(rt, name)?;
    print!(rt; " {max_rows}")
}

fn show_two(rt: &HostRuntime, one: &PgStr, other: &PgStr) -> io::Result<()> {
    show_text(rt, one)?;
    show_text(rt, other)
}

/// Prints a text of at most 40 bytes, and of a longer one how many bytes there are, the first and
/// the last.
fn show_text(rt: &HostRuntime, text: &PgStr) -> io::Result<()> {
    let text = text.as_str();
    if text.len() <= 40 {
        return print!(rt; " '{text}'");
    }
    rt.print(" text of")?;
    show_bytes(rt, text.as_bytes())
}

/// Prints at most 40 bytes, and of more how many there are, the first three and the last three.
pub fn show_bytes(rt: &HostRuntime, bytes: &[u8]) -> io::Result<()> {
    if bytes.len() <= 40 {
        rt.print(" ")?;
        return show_hex(rt, bytes);
    }
    print!(rt; " {} bytes ", bytes.len())?;
    show_hex(rt, &bytes[..3])?;
    rt.print("..")?;
    show_hex(rt, &bytes[bytes.len() - 3..])
}

fn show_hex(rt: &HostRuntime, bytes: &[u8]) -> io::Result<()> {
    for byte in bytes {
        print!(rt; "{byte:02x}")?;
    }
    Ok(())
}

/// Prints at most eight items, and of more how many there are, the first and the last.
fn show_items<T: Display>(rt: &HostRuntime, items: &[T]) -> io::Result<()> {
    match items {
        [first, .., last] if items.len() > 8 => {
            print!(rt; " [{} items {first}..{last}]", items.len())
        }
        _ => show_each(rt, items),
    }
}

fn show_each<T: Display>(rt: &HostRuntime, items: &[T]) -> io::Result<()> {
    rt.print(" [")?;
    for item in items {
        print!(rt; " {item}")?;
    }
    rt.print(" ]")
}

fn show_values(rt: &HostRuntime, values: &[Option<PgBytes>]) -> io::Result<()> {
    print!(rt; " [{} values", values.len())?;
    for value in first_four(values) {
        show_value(rt, value)?;
    }
    rt.print(" ]")
}

/// The first four, or all where there are fewer.
fn first_four<T>(all: &[T]) -> &[T] {
    let (first, _) = all.split_at(all.len().min(4));
    first
}

fn show_value(rt: &HostRuntime, value: &Option<PgBytes>) -> io::Result<()> {
    match value {
        None => rt.print(" null"),
        Some(bytes) => show_bytes(rt, bytes.as_slice()),
    }
}
