//! Statements in print: the line, the verb, the subject, and each operand with its values after `=`.
use crate::bytes::bytes_of;
use crate::print::{line, put_bytes, put_fault};
use faults::NoMemory;
use mcs_reader::{Id, Operand, Statement, Statements, Verb, read};
use std::alloc::Global;
use std::fmt::Write;
use std::test::Fail;

/// All statements of a source, or its fault.
pub(crate) fn read_told(alloc: Global, source: &[u8]) -> Result<String, Fail> {
    let mut text = String::new(alloc);
    match read(alloc, source) {
        Ok(statements) => put_statements(&mut text, &statements)?,
        Err(fault) => put_fault(&mut text, fault)?,
    }
    Ok(text)
}

fn put_statements(text: &mut String, statements: &[Statement]) -> Result<(), Fail> {
    for statement in statements {
        put_statement(text, statement)?;
    }
    Ok(())
}

/// The statements of a source one at a time, up to its fault.
pub(crate) fn each_told(alloc: Global, source: &[u8]) -> Result<String, Fail> {
    let mut text = String::new(alloc);
    match Statements::new(alloc, source) {
        Ok(statements) => put_each(&mut text, statements)?,
        Err(fault) => put_fault(&mut text, fault)?,
    }
    Ok(text)
}

/// The same with the operands that are asked for.
pub(crate) fn asking_told(alloc: Global, source: &[u8], names: &str) -> Result<String, Fail> {
    let mut text = String::new(alloc);
    let mut asked: Vec<&[u8]> = Vec::new(alloc);
    for name in names.split_ascii_whitespace() {
        asked.push(name.as_bytes())?;
    }
    match Statements::asking(alloc, source, &asked) {
        Ok(statements) => put_each(&mut text, statements)?,
        Err(fault) => put_fault(&mut text, fault)?,
    }
    Ok(text)
}

fn put_each(text: &mut String, statements: Statements<'_>) -> Result<(), Fail> {
    let mut statements = statements;
    for _ in 0..u32::MAX {
        match statements.next() {
            Ok(Some(statement)) => put_statement(text, &statement)?,
            Ok(None) => return Ok(()),
            Err(fault) => return Ok(put_fault(text, fault)?),
        }
    }
    Ok(())
}

fn put_statement(text: &mut String, statement: &Statement) -> Result<(), Fail> {
    write!(text, "{} ++{}", statement.line, verb_name(statement.verb))?;
    if let Some(id) = statement.subject {
        text.push(' ')?;
        text.push_str(id.text())?;
    }
    for operand in statement.operands.as_slice() {
        put_operand(text, operand)?;
    }
    Ok(text.push('\n')?)
}

fn put_operand(text: &mut String, operand: &Operand) -> Result<(), NoMemory> {
    text.push(' ')?;
    put_bytes(text, operand.name)?;
    for value in operand.values.as_slice() {
        text.push('=')?;
        put_bytes(text, value)?;
    }
    Ok(())
}

fn verb_name(verb: Verb) -> &'static str {
    match verb {
        Verb::Hold => "HOLD",
        Verb::Release => "RELEASE",
        Verb::Func => "FUNCTION",
        Verb::Ptf => "PTF",
        Verb::Apar => "APAR",
        Verb::Usermod => "USERMOD",
        Verb::Ver => "VER",
        Verb::Cond => "IF",
    }
}

/// An id in eight columns, or that it is none.
pub(crate) fn id_told(alloc: Global, text: &str) -> Result<String, Fail> {
    match Id::new(&bytes_of(alloc, text)?) {
        Some(id) => Ok(format!(in alloc; "{id:<8}|{}\n", id.text())?),
        None => Ok(line(alloc, "no id")?),
    }
}
