//! What the text of a query means.

ghost use Rattle.std.specs.Prelude.{◌≡◌, [], ◌∷◌, IfOk, IfErr};
ghost use Rattle.pg_results.specs.Rows.{IsAnswerableItem};
ghost use Rattle.pg_results.specs.Texts.{IsShortText};
ghost use Rattle.pg_results.specs.Told.{IsOutcome};
ghost use Rattle.shift_orders.specs.Statements.{argument_of, arguments, in_order, parameters, ordered, booking, canceling, listing, listing_of, is_key, alone, statement_of, meaning, meaning_of, text_of, no_statement, unknown_parameter};

use crate::tokens::{Token, Tokens, is_ended};
use pg_messages::PgStr;
use pg_portal::PgWireError;
use query_texts::trimmed;
use row_handlers::user_error;
use std::alloc::{AllocError, Global};

/// An argument of a statement.
#[derive(Debug, Drop)]
pub enum Argument {
    /// A text that stands in the query.
    Text(PgStr),
    /// A parameter: `$1` is the one at 0.
    Parameter(usize),
}

/// What a query means.
#[derive(Debug, Drop)]
pub enum ShiftStatement {
    /// `BOOK name start length`: to book the shift of this name, start and length.
    Book {
        name: Argument,
        start: Argument,
        length: Argument,
    },
    /// `CANCEL name start`: to cancel the shift of this name and start.
    Cancel {
        name: Argument,
        start: Argument,
    },
    /// `SHIFTS`: to show all shifts.
    Shifts,
    /// `SHIFTS OF name`: to show the shifts of this name.
    ShiftsOf {
        name: Argument,
    },
    /// `BEGIN`: to begin a transaction.
    Begin,
    /// `COMMIT`: to end it, and keep what it did.
    Commit,
    /// `ROLLBACK`: to end it, and undo what it did.
    Rollback,
}

/// What a query means, without whitespace and semicolons at both ends. Key words stand in any ASCII
/// case. An argument is a quoted text, in which `''` stands for one quote, or a word, which stands for
/// its own text. The words `$1`, `$2` and `$3` are parameters.
///
/// The error is 42601 for a quote that isn't ended, and then for any other query, by its key words and
/// the number of its arguments. Each argument is looked at in turn: 42P02 for any other word that
/// begins with `$`, and 42601 for any other word with a semicolon in it. At last it is 42P02 where the
/// parameters don't stand in their order, each once. Or it is `NoMemory`.
#[tactic(auto, using(crate::proofs::Meanings::meaning_answerable))]
pub fn parse_statement(alloc: Global, query: &str) -> Result<ShiftStatement, PgWireError>
    ensures outcome { IsOutcome (meaning_of query.now) result }
    ensures answerable { IsShortText query.now → IfErr result IsAnswerableItem }
{
    meaning(alloc, trimmed(query))
}

/// What a text without padding means.
fn meaning(alloc: Global, text: &str) -> Result<ShiftStatement, PgWireError>
    ensures { IsOutcome (meaning text.now) result }
{
    if !is_ended(text) {
        return Err(user_error(alloc, "42601", "a quote isn't ended")?);
    }
    statement_of(alloc, Tokens::new(text))
}

/// The statement that tokens are.
fn statement_of(alloc: Global, mut tokens: Tokens<'_>) -> Result<ShiftStatement, PgWireError>
    ensures { IsOutcome (statement_of tokens.entry) result }
{
    let Some(key) = tokens.next_word() else {
        return no_statement(alloc);
    };
    if key.eq_ignore_ascii_case("BOOK") {
        booking(alloc, tokens)
    } else if key.eq_ignore_ascii_case("CANCEL") {
        canceling(alloc, tokens)
    } else if key.eq_ignore_ascii_case("SHIFTS") {
        listing(alloc, tokens)
    } else if key.eq_ignore_ascii_case("BEGIN") {
        alone(alloc, ShiftStatement::Begin, tokens)
    } else if key.eq_ignore_ascii_case("COMMIT") {
        alone(alloc, ShiftStatement::Commit, tokens)
    } else if key.eq_ignore_ascii_case("ROLLBACK") {
        alone(alloc, ShiftStatement::Rollback, tokens)
    } else {
        no_statement(alloc)
    }
}

/// Whether a token is this key word, in any ASCII case. A quoted text is none.
fn is_key(token: &Token, key: &str) -> bool
    ensures { result ≡ is_key token.now key.now }
{
    match token {
        Token::Word(word) => word.as_str().eq_ignore_ascii_case(key),
        Token::Quoted(_) => false,
    }
}

/// The statement of what stands behind BOOK.
fn booking(alloc: Global, mut tokens: Tokens<'_>) -> Result<ShiftStatement, PgWireError>
    ensures { IsOutcome (booking tokens.entry) result }
{
    let Some(name) = tokens.next(alloc)? else {
        return no_statement(alloc);
    };
    let Some(start) = tokens.next(alloc)? else {
        return no_statement(alloc);
    };
    let Some(length) = tokens.next(alloc)? else {
        return no_statement(alloc);
    };
    if tokens.next(alloc)?.is_some() {
        return no_statement(alloc);
    }
    let name = argument_of(alloc, name)?;
    let start = argument_of(alloc, start)?;
    let length = argument_of(alloc, length)?;
    ordered(
        alloc,
        ShiftStatement::Book {
            name,
            start,
            length,
        },
    )
}

/// The statement of what stands behind CANCEL.
fn canceling(alloc: Global, mut tokens: Tokens<'_>) -> Result<ShiftStatement, PgWireError>
    ensures { IsOutcome (canceling tokens.entry) result }
{
    let Some(name) = tokens.next(alloc)? else {
        return no_statement(alloc);
    };
    let Some(start) = tokens.next(alloc)? else {
        return no_statement(alloc);
    };
    if tokens.next(alloc)?.is_some() {
        return no_statement(alloc);
    }
    let name = argument_of(alloc, name)?;
    let start = argument_of(alloc, start)?;
    ordered(alloc, ShiftStatement::Cancel { name, start })
}

/// The statement of what stands behind SHIFTS.
fn listing(alloc: Global, mut tokens: Tokens<'_>) -> Result<ShiftStatement, PgWireError>
    ensures { IsOutcome (listing tokens.entry) result }
{
    let Some(of) = tokens.next(alloc)? else {
        return Ok(ShiftStatement::Shifts);
    };
    if is_key(&of, "OF") {
        listing_of(alloc, tokens)
    } else {
        no_statement(alloc)
    }
}

/// The statement of what stands behind SHIFTS OF.
fn listing_of(alloc: Global, mut tokens: Tokens<'_>) -> Result<ShiftStatement, PgWireError>
    ensures { IsOutcome (listing_of tokens.entry) result }
{
    let Some(name) = tokens.next(alloc)? else {
        return no_statement(alloc);
    };
    if tokens.next(alloc)?.is_some() {
        return no_statement(alloc);
    }
    let name = argument_of(alloc, name)?;
    ordered(alloc, ShiftStatement::ShiftsOf { name })
}

/// The statement of one word, where nothing stands behind it.
fn alone(
    alloc: Global,
    statement: ShiftStatement,
    mut tokens: Tokens<'_>,
) -> Result<ShiftStatement, PgWireError>
    ensures { IsOutcome (alone statement tokens.entry) result }
{
    match tokens.next(alloc)? {
        Some(_) => no_statement(alloc),
        None => Ok(statement),
    }
}

/// The error of any other query.
fn no_statement(alloc: Global) -> Result<ShiftStatement, PgWireError>
    ensures { IsOutcome (Err no_statement) result }
{
    let message =
        "a query is BOOK name start length, CANCEL name start, SHIFTS, SHIFTS OF name, BEGIN, COMMIT or ROLLBACK";
    Err(user_error(alloc, "42601", message)?)
}

/// The argument that a token is.
fn argument_of(alloc: Global, token: Token) -> Result<Argument, PgWireError>
    ensures { IsOutcome (argument_of token) result }
{
    match token {
        Token::Word(word) => match word.as_str() {
            "$1" => Ok(Argument::Parameter(0)),
            "$2" => Ok(Argument::Parameter(1)),
            "$3" => Ok(Argument::Parameter(2)),
            _ => text_of(alloc, word),
        },
        Token::Quoted(text) => Ok(Argument::Text(text)),
    }
}

/// What a word that is no parameter stands for.
fn text_of(alloc: Global, word: PgStr) -> Result<Argument, PgWireError>
    ensures { IsOutcome (text_of word) result }
{
    let bytes = word.as_str().as_bytes();
    if bytes.starts_with(b"$") {
        return Err(unknown_parameter(alloc, word.as_str())?);
    }
    if bytes.contains(&b';') {
        let message = "a text with a semicolon stands in quotes";
        return Err(user_error(alloc, "42601", message)?);
    }
    Ok(Argument::Text(word))
}

/// The error of a word that is a parameter by its first byte, and none that is known.
fn unknown_parameter(alloc: Global, word: &str) -> Result<PgWireError, AllocError>
    ensures { IfOk result (λ e. e ≡ unknown_parameter word.now) }
{
    let message = format!(in alloc; "there is no parameter {word}")?;
    user_error(alloc, "42P02", message.as_str())
}

/// The statement, where its parameters stand in their order.
fn ordered(alloc: Global, statement: ShiftStatement) -> Result<ShiftStatement, PgWireError>
    ensures { IsOutcome (ordered statement) result }
{
    if are_in_order(&statement) {
        Ok(statement)
    } else {
        let message = "parameters stand in their order: $1, $2, $3";
        Err(user_error(alloc, "42P02", message)?)
    }
}

/// Whether the parameters of a statement stand in their order.
fn are_in_order(statement: &ShiftStatement) -> bool
    ensures { result ≡ in_order 0 (arguments statement.now) }
{
    match statement {
        ShiftStatement::Book {
            name,
            start,
            length,
        } => {
            may_stand(name, 0)
                && may_stand(start, parameters(name))
                && may_stand(length, parameters(name) + parameters(start))
        }
        ShiftStatement::Cancel { name, start } => {
            may_stand(name, 0) && may_stand(start, parameters(name))
        }
        ShiftStatement::ShiftsOf { name } => may_stand(name, 0),
        _ => true,
    }
}

/// Whether an argument may stand behind so many parameters.
fn may_stand(argument: &Argument, before: usize) -> bool
    ensures { result ≡ in_order before (argument.now ∷ []) }
{
    match argument {
        Argument::Text(_) => true,
        Argument::Parameter(index) => *index == before,
    }
}

/// How many parameters an argument is.
fn parameters(argument: &Argument) -> usize
    ensures { result ≡ parameters argument.now }
{
    match argument {
        Argument::Text(_) => 0,
        Argument::Parameter(_) => 1,
    }
}
