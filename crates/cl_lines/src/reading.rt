//! Reading a line: an operator's by its first word; of a client's first the form of its words, then its session,
//! then the arguments in their order.
ghost use Rattle.std.specs.Prelude.{◌≡◌, [], ◌∷◌, Ok, Err};
ghost use Rattle.std.specs.List.{list_any};
ghost use Rattle.std.specs.Option.{option_map};
ghost use Rattle.cl_lines.specs.Words.{words, is_empty};
ghost use Rattle.cl_lines.specs.Line.{ReadsLine, session_of, bare_command, bare_operation, operation_with, command_of, quiet_line, line_of};
ghost use Rattle.cl_lines.specs.Forms.{operation_of, command_of_form};

use crate::words::Words;
use crate::{Command, LINE_MAX, Line, LineFault, Order, Unread};
use cl_types::{Key, Op, SESSIONS_MAX, TableName, Value, natural_of, number_of_text};
use std::alloc::Global;

// The verb of an operation on a record, with its argument as a word.
#[derive(Clone, Copy)]
enum Verb<'a> {
    Get,
    Put(&'a [u8]),
    Del,
    Add(&'a [u8]),
}

// The form of the words after the session: the verb, and its arguments as words.
#[derive(Clone, Copy)]
enum Form<'a> {
    Begin,
    Work(&'a [u8], &'a [u8], Verb<'a>),
    Commit,
    Abort,
}

// Whether a word of the line is empty.
fn has_empty_word(text: &[u8]) -> bool
    ensures { result ≡ list_any is_empty (words text.now) }
{
    Words::of(text).any(|word| word.is_empty())
}

// The form of one word.
fn bare_form(verb: &[u8]) -> Option<Form<'_>>
    ensures { option_map command_of_form result ≡ bare_command verb.now }
{
    if verb == b"BEGIN".as_slice() {
        Some(Form::Begin)
    } else if verb == b"COMMIT".as_slice() {
        Some(Form::Commit)
    } else if verb == b"ABORT".as_slice() {
        Some(Form::Abort)
    } else {
        None
    }
}

// The verb of an operation that has no argument.
fn bare_verb(verb: &[u8]) -> Option<Verb<'_>>
    ensures { option_map operation_of result ≡ bare_operation verb.now }
{
    if verb == b"GET".as_slice() {
        Some(Verb::Get)
    } else if verb == b"DEL".as_slice() {
        Some(Verb::Del)
    } else {
        None
    }
}

// The verb of an operation that has an argument.
fn verb_with<'a>(verb: &[u8], argument: &'a [u8]) -> Option<Verb<'a>>
    ensures { option_map operation_of result ≡ operation_with verb.now argument.now }
{
    if verb == b"PUT".as_slice() {
        Some(Verb::Put(argument))
    } else if verb == b"ADD".as_slice() {
        Some(Verb::Add(argument))
    } else {
        None
    }
}

// The form of the words after the session, if they have one.
#[tactic(auto, unfolding(crate::specs::Line::command_of))]
fn form_of<'a>(mut words: Words<'a>) -> Option<Form<'a>>
    ensures { option_map command_of_form result ≡ command_of words.entry }
{
    let verb = words.next()?;
    let Some(table) = words.next() else {
        return bare_form(verb);
    };
    let key = words.next()?;
    let Some(argument) = words.next() else {
        return Some(Form::Work(table, key, bare_verb(verb)?));
    };
    if words.next().is_some() {
        return None;
    }
    Some(Form::Work(table, key, verb_with(verb, argument)?))
}

// The session that a word names.
fn read_session(word: &[u8]) -> Result<u32, Unread>
    ensures { ReadsLine result (session_of word.now) }
{
    let number = natural_of(word).ok_or(LineFault::Session)?;
    match u32::try_from(number) {
        Ok(session @ 1..=SESSIONS_MAX) => Ok(session),
        _ => Err(LineFault::Session.into()),
    }
}

// The operation of a verb, whose argument is read.
fn read_operation(alloc: Global, verb: Verb<'_>) -> Result<Op, Unread>
    ensures { ReadsLine result (operation_of verb.entry) }
{
    Ok(match verb {
        Verb::Get => Op::Get,
        Verb::Put(argument) => Op::Put(Value::read(alloc, argument)?.ok_or(LineFault::Value)?),
        Verb::Del => Op::Del,
        Verb::Add(argument) => Op::Add(number_of_text(argument).ok_or(LineFault::Number)?),
    })
}

// The command of a form, whose arguments are read in their order.
fn read_command(alloc: Global, form: Form<'_>) -> Result<Command, Unread>
    ensures { ReadsLine result (command_of_form form.entry) }
{
    match form {
        Form::Begin => Ok(Command::Begin),
        Form::Work(table, key, verb) => {
            let table = TableName::read(table).ok_or(LineFault::Table)?;
            let key = Key::read(key).ok_or(LineFault::Key)?;
            Ok(Command::Work(table, key, read_operation(alloc, verb)?))
        }
        Form::Commit => Ok(Command::Commit),
        Form::Abort => Ok(Command::Abort),
    }
}

// The line of QUIET, after which these words stand.
fn read_quiet(mut others: Words<'_>) -> Result<Line, Unread>
    ensures { ReadsLine result (quiet_line others.entry) }
{
    if others.next().is_some() {
        return Err(LineFault::Words.into());
    }
    Ok(Line::Operator(Order::Quiet))
}

/// Reads a line, given without its newline.
///
/// It allocates for the value of a PUT alone and runs in linear time; no contract says so.
#[tactic(auto, unfolding(crate::specs::Line::line_of))]
pub fn read_line(alloc: Global, text: &[u8]) -> Result<Line, Unread>
    // The line that the bytes are, or their first fault. An allocation may fail at any line.
    ensures { ReadsLine result (line_of text.now) }
{
    if LINE_MAX < text.len() {
        return Err(LineFault::Length.into());
    }
    if has_empty_word(text) {
        return Err(LineFault::Words.into());
    }
    let mut words = Words::of(text);
    let first = words.next().ok_or(LineFault::Words)?;
    if first == b"QUIET".as_slice() {
        return read_quiet(words);
    }
    let form = form_of(words).ok_or(LineFault::Words)?;
    let session = read_session(first)?;
    let command = read_command(alloc, form)?;
    Ok(Line::Client(session, command))
}
