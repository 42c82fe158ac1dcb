//! Messages of both sides, by their fields.

use row_files::{Fault, part, push_hex, told_by};
use std::alloc::Global;

/// The layout of each message: its name, its type byte (`-` for the first packets of a client),
/// and its fields (protocol: Message Formats). `i` is an Int32 in decimal, `w` an Int16, `y` an
/// Int8, `b` a byte by its character, `s` a text with a zero behind it, `h` bytes in hexadecimal
/// or `text` and their text, `c` a count and as many Int16, `o` a count and as many Int32, `v` a
/// count and as many values, `f` a count and as many columns of a row description, `r` a count
/// and all further fields as cells, `l` all further fields as the cells of a line, `S` all
/// further fields as texts and then a zero, `E` the same where each text follows a byte. `alone`
/// is the type byte without a length.
const LAYOUTS: &str = "# the client's
Startup - iS
SSLRequest - i
GSSENCRequest - i
CancelRequest - iih
Query Q s
Parse P sso
Bind B sscvc
Describe D bs
Execute E si
Close C bs
Flush H
Sync S
Terminate X
CopyFail f s
# of both sides
CopyData d h
CopyLine d l
CopyDone c
# the server's
SslResponse N alone
GssEncResponse N alone
AuthenticationOk R i
ParameterStatus S ss
BackendKeyData K ih
ReadyForQuery Z b
ParseComplete 1
BindComplete 2
CloseComplete 3
ParameterDescription t o
RowDescription T f
NoData n
DataRow D r
PortalSuspended s
CommandComplete C s
EmptyQueryResponse I
CopyInResponse G yc
CopyOutResponse H yc
CopyBothResponse W yc
ErrorResponse E E";

/// The type byte and the layout of the message of this name.
fn layout_of(name: &str) -> Option<(&'static str, &'static str)> {
    for line in LAYOUTS.lines() {
        if let Some(rest) = told_by(line, name) {
            return Some(rest.split_once(" ").unwrap_or((rest, "")));
        }
    }
    None
}

/// The bytes of messages, and the fault of a line that tells none, if there is one.
#[derive(Drop)]
pub struct Frames<'t> {
    alloc: Global,
    bytes: Vec<u8>,
    fault: Option<Fault<'t>>,
}

impl<'t> Frames<'t> {
    /// No message.
    pub fn new(alloc: Global) -> Frames<'t> {
        Frames {
            alloc,
            bytes: Vec::new(alloc),
            fault: None,
        }
    }

    pub fn as_slice(&self) -> &[u8] {
        self.bytes.as_slice()
    }

    pub fn len(&self) -> usize {
        self.bytes.len()
    }

    /// The fault of a line that tells no message, or that memory ran out, if one of these came.
    pub fn fault(&self) -> Option<Fault<'t>> {
        self.fault
    }

    fn fail(&mut self, fault: Fault<'t>) {
        self.fault = Some(fault);
    }

    fn put(&mut self, more: &[u8]) {
        if self.bytes.extend_from_slice(more).is_err() {
            self.fail(Fault::NoMemory);
        }
    }

    fn put_hex(&mut self, digits: &'t str) {
        if let Err(fault) = push_hex(&mut self.bytes, digits) {
            self.fail(fault);
        }
    }

    /// Appends a message: its name and its fields, with a bar before each field; or `hex` and its
    /// bytes.
    pub fn put_message(&mut self, line: &'t str) {
        match line.strip_prefix("hex ") {
            Some(digits) => self.put_hex(digits),
            None => self.put_named(line),
        }
    }

    /// Appends a message that a name tells.
    fn put_named(&mut self, line: &'t str) {
        let (name, _) = line.split_once("|").unwrap_or((line, ""));
        match layout_of(name.trim()) {
            None => self.fail(Fault::Line(line)),
            Some((type_byte, "alone")) => self.put(type_byte.as_bytes()),
            Some((type_byte, layout)) => self.put_framed(type_byte, layout, line),
        }
    }

    /// Appends a message with its length.
    fn put_framed(&mut self, type_byte: &str, layout: &str, line: &'t str) {
        if type_byte != "-" {
            self.put(type_byte.as_bytes());
        }
        let mut body = Frames::new(self.alloc);
        body.put_fields(layout, line);
        self.put_counted(&body, 4);
    }

    /// Appends an Int32, the number of the bytes plus `more`, and then the bytes.
    fn put_counted(&mut self, counted: &Frames<'t>, more: usize) {
        self.put_count32(counted.len().saturating_add(more));
        self.put(counted.as_slice());
        if let Some(fault) = counted.fault {
            self.fail(fault);
        }
    }

    /// Appends the fields of a message, as its layout says.
    fn put_fields(&mut self, layout: &str, line: &'t str) {
        for (place, kind) in layout.bytes().enumerate() {
            self.put_kind(kind, place.saturating_add(1), line);
        }
    }

    /// Appends what a letter of a layout says of the fields, the first of which stands at this
    /// place of the line.
    fn put_kind(&mut self, kind: u8, place: usize, line: &'t str) {
        match kind {
            b'S' | b'E' => self.put_texts(kind, place, line),
            b'r' => self.put_list(kind, line.split_once("|").unwrap_or(("", "")).1, "|"),
            b'l' => self.put_cells_of_line(line),
            _ => match part(line, place) {
                Ok(field) => self.put_field(kind, field),
                Err(fault) => self.fail(fault),
            },
        }
    }

    /// Appends each field from a place on as a text, and then a zero.
    fn put_texts(&mut self, kind: u8, place: usize, line: &'t str) {
        for field in line.split("|").skip(place) {
            self.put_text(kind, field.trim());
        }
        self.put(&[0]);
    }

    /// Appends a cell: `null`, `hex` and its bytes, or its text.
    fn put_cell(&mut self, cell: &'t str) {
        if cell == "null" || cell.starts_with("hex ") {
            self.put_value(cell);
        } else {
            self.put_text_value(unquoted(cell));
        }
    }

    /// Appends the cells of a line of COPY data: tabs between them, and a newline behind.
    fn put_cells_of_line(&mut self, line: &str) {
        let mut between: &[u8] = b"";
        for field in line.split("|").skip(1) {
            self.put(between);
            self.put(unquoted(field.trim()).as_bytes());
            between = b"\t";
        }
        self.put(b"\n");
    }

    /// Appends a text with a zero behind it. In an error's field, the byte of its kind comes first.
    fn put_text(&mut self, kind: u8, text: &str) {
        let (byte, text) = match text.split_once(" ") {
            Some((byte, rest)) if kind == b'E' => (byte, rest),
            _ => ("", unquoted(text)),
        };
        self.put(byte.as_bytes());
        self.put(text.as_bytes());
        self.put(&[0]);
    }

    /// Appends one field.
    fn put_field(&mut self, kind: u8, field: &'t str) {
        match kind {
            b'i' => self.put_int32(field),
            b'w' => self.put_int16(field),
            b'y' => self.put_int8(field),
            b'b' => self.put(field.as_bytes()),
            b's' => self.put_text(kind, field),
            b'h' => self.put_payload(field),
            _ => self.put_list(kind, field, ","),
        }
    }

    /// Appends a count and the parts of a list, which `by` separates.
    fn put_list(&mut self, kind: u8, field: &'t str, by: &str) {
        if field.is_empty() {
            return self.put_count16(0);
        }
        self.put_count16(field.split(by).count());
        for part in field.split(by) {
            self.put_part(kind, part.trim());
        }
    }

    /// Appends one part of a list.
    fn put_part(&mut self, kind: u8, part: &'t str) {
        match kind {
            b'r' => self.put_cell(part),
            b'c' => self.put_int16(part),
            b'o' => self.put_int32(part),
            b'v' => self.put_value(part),
            b'f' => self.put_column(part),
            _ => self.fail(Fault::Line(part)),
        }
    }

    /// Appends a value: `null`, or its length and its bytes, told by `hex` or by `text`.
    fn put_value(&mut self, part: &'t str) {
        match part.split_once(" ") {
            Some(("text", text)) => self.put_text_value(text),
            Some(("hex", digits)) => self.put_hex_value(digits),
            _ if part == "null" => self.put_int32("-1"),
            _ => self.fail(Fault::Line(part)),
        }
    }

    fn put_text_value(&mut self, text: &str) {
        self.put_count32(text.len());
        self.put(text.as_bytes());
    }

    fn put_hex_value(&mut self, digits: &'t str) {
        let mut value = Frames::new(self.alloc);
        value.put_hex(digits);
        self.put_counted(&value, 0);
    }

    /// Appends a column of a row description: its name, type oid, type size and format code.
    fn put_column(&mut self, part: &'t str) {
        let (name, numbers) = part.split_once(" ").unwrap_or((part, ""));
        self.put_text(b's', name);
        self.put(&[0, 0, 0, 0, 0, 0]);
        self.put_type(numbers);
    }

    /// Appends the type of a column: its oid, its size, no modifier, and the format code.
    fn put_type(&mut self, numbers: &'t str) {
        let (oid, rest) = numbers.split_once(" ").unwrap_or((numbers, ""));
        let (size, format) = rest.split_once(" ").unwrap_or((rest, ""));
        self.put_int32(oid);
        self.put_int16(size);
        self.put_int32("-1");
        self.put_int16(format);
    }

    /// Appends bytes, told by `text` or in hexadecimal.
    fn put_payload(&mut self, field: &'t str) {
        match field.strip_prefix("text ") {
            Some(text) => self.put(unquoted(text).as_bytes()),
            None => self.put_hex(field),
        }
    }

    fn put_int8(&mut self, word: &'t str) {
        match word.parse::<i8>() {
            Ok(number) => self.put(&number.to_be_bytes()),
            Err(_) => self.fail(Fault::Line(word)),
        }
    }

    fn put_int16(&mut self, word: &'t str) {
        match word.parse::<i16>() {
            Ok(number) => self.put(&number.to_be_bytes()),
            Err(_) => self.fail(Fault::Line(word)),
        }
    }

    fn put_int32(&mut self, word: &'t str) {
        match word.parse::<i32>() {
            Ok(number) => self.put(&number.to_be_bytes()),
            Err(_) => self.fail(Fault::Line(word)),
        }
    }

    fn put_count16(&mut self, count: usize) {
        match u16::try_from(count) {
            Ok(count) => self.put(&count.to_be_bytes()),
            Err(_) => self.fail(Fault::Line("too many parts")),
        }
    }

    fn put_count32(&mut self, count: usize) {
        match u32::try_from(count) {
            Ok(count) => self.put(&count.to_be_bytes()),
            Err(_) => self.fail(Fault::Line("too many bytes")),
        }
    }
}

/// A text without the quotes round it, which keep the whitespace at its ends.
fn unquoted(text: &str) -> &str {
    match text.strip_prefix("\"") {
        None => text,
        Some(rest) => rest.strip_suffix("\"").unwrap_or(text),
    }
}
