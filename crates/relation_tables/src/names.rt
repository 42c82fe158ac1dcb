//! The names of relations and of their columns.

ghost use Rattle.std.specs.Prelude.{◌≡◌, ◌==◌, not};
ghost use Rattle.std.specs.List.{list_all};
ghost use Rattle.relation_tables.specs.Names.{is_foreign_to_names, is_transaction_word, is_name, is_column_name};

/// How many columns a relation may have, as many as a table of PostgreSQL.
pub const MOST_COLUMNS: usize = 1600;

/// How many bytes a name may have, as many as one of PostgreSQL.
const MOST_NAME: usize = 63;

/// Whether a query can say this name: it has 1 to 63 bytes, none of them whitespace, `;` or zero, and
/// is neither `BEGIN` nor `COMMIT` in any ASCII case.
pub fn is_name(name: &str) -> bool
    ensures { result ≡ is_name name.now }
{
    let len = name.len();
    len >= 1 && len <= MOST_NAME && has_no_foreign(name.as_bytes()) && !says_transaction(name)
}

/// Whether a name may hold each of these bytes.
fn has_no_foreign(bytes: &[u8]) -> bool
    ensures { result ≡ list_all (λ byte. not (is_foreign_to_names byte)) bytes.now }
{
    bytes.iter().all(|byte| !is_foreign(*byte))
}

/// Whether a name may not hold this byte: whitespace, a semicolon or zero.
fn is_foreign(byte: u8) -> bool
    ensures { result ≡ is_foreign_to_names byte }
{
    (byte >= 9 && byte <= 13) || byte == b' ' || byte == b';' || byte == 0
}

/// Whether a text is BEGIN or COMMIT, in any ASCII case.
fn says_transaction(text: &str) -> bool
    ensures { result ≡ is_transaction_word text.now }
{
    text.eq_ignore_ascii_case("BEGIN") || text.eq_ignore_ascii_case("COMMIT")
}

/// Whether a column may have this name: it has at most 63 bytes, none of them zero.
pub fn is_column_name(name: &str) -> bool
    ensures { result ≡ is_column_name name.now }
{
    name.len() <= MOST_NAME && has_no_zero(name.as_bytes())
}

/// Whether no byte is zero.
fn has_no_zero(bytes: &[u8]) -> bool
    ensures { result ≡ list_all (λ byte. not (byte == 0)) bytes.now }
{
    bytes.iter().all(|byte| *byte != 0)
}
