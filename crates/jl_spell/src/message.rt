//! Messages of a row: IRIs, literals and entries.
ghost use Rattle.std.specs.Prelude.{◌≡◌, ◌<◌, ◌≤◌, ◌+◌, ◌^◌, ◌++◌, length, OnErr, OnOk};
ghost use Rattle.jl_rows.specs.Written.{Ending, Row};
ghost use Rattle.jl_spell.specs.Fields.{Bytes, Number, field_of};
ghost use Rattle.jl_spell.specs.Messages.{unless_0, unless_empty};
ghost use Rattle.jl_spell.specs.Rows.{entry_number, iri_of, literal_of, row_of};

use crate::field::{front_size, number_size, push_bytes, push_front, push_number};
use jl_rows::Table;
use std::alloc::AllocError;

// A number that is in no 'one of'.
#[inline]
fn push_unless_0(out: &mut Vec<u8>, field: u32, number: u64) -> Result<(), AllocError>
    ensures { OnOk result (out.new.items ≡ out.old.items ++ unless_0 field number) }
{
    if number == 0 {
        return Ok(());
    }
    push_number(out, field, number)
}

#[inline]
fn size_unless_0(field: u32, number: u64) -> usize
    ensures exact { result ≡ length (unless_0 field number) }
    ensures within { result ≤ 20 }
{
    if number == 0 {
        return 0;
    }
    number_size(field, number)
}

// A text that is in no 'one of'.
#[inline]
fn push_unless_empty(out: &mut Vec<u8>, field: u32, text: &[u8]) -> Result<(), AllocError>
    ensures { OnOk result (out.new.items ≡ out.old.items ++ unless_empty field text.now) }
{
    if text.is_empty() {
        return Ok(());
    }
    push_bytes(out, field, text)
}

#[inline]
fn size_unless_empty(field: u32, text: &[u8]) -> usize
    requires { length text.now < 2 ^ 32 }
    ensures exact { result ≡ length (unless_empty field text.now) }
    ensures within { result ≤ length text.now + 20 }
{
    if text.is_empty() {
        return 0;
    }
    front_size(field, text.len()) + text.len()
}

/// How many bytes an IRI's message takes.
#[inline]
pub fn iri_size(prefix: u64, name: u64) -> usize
    ensures exact { result ≡ length (iri_of (record { prefix = prefix; name = name })) }
    ensures within { result ≤ 40 }
{
    size_unless_0(1, prefix) + size_unless_0(2, name)
}

/// Appends a field that holds an IRI. Where memory isn't found, a front of it may be appended.
#[inline]
pub fn push_iri(out: &mut Vec<u8>, field: u32, prefix: u64, name: u64) -> Result<(), AllocError>
    ensures { OnOk result (out.new.items ≡ out.old.items ++ field_of field (Bytes (iri_of (record { prefix = prefix; name = name })))) }
{
    push_front(out, field, iri_size(prefix, name))?;
    push_unless_0(out, 1, prefix)?;
    push_unless_0(out, 2, name)
}

/// Appends a field that holds a literal without tag and datatype. Where memory isn't found, a front of it may be
/// appended.
pub fn push_simple_literal(out: &mut Vec<u8>, field: u32, lex: &[u8]) -> Result<(), AllocError>
    requires { length lex.now < 2 ^ 32 }
    ensures { OnOk result (out.new.items ≡ out.old.items ++ field_of field (Bytes (literal_of lex.now Ending.Simple))) }
{
    push_front(out, field, size_unless_empty(1, lex))?;
    push_unless_empty(out, 1, lex)
}

/// Appends a field that holds a literal with a language tag, which is written even where it is empty. Where memory
/// isn't found, a front of it may be appended.
pub fn push_tagged_literal(
    out: &mut Vec<u8>,
    field: u32,
    lex: &[u8],
    tag: &[u8],
) -> Result<(), AllocError>
    requires lex { length lex.now < 2 ^ 32 }
    requires tag { length tag.now < 2 ^ 32 }
    ensures { OnOk result (out.new.items ≡ out.old.items ++ field_of field (Bytes (literal_of lex.now (Ending.Lang tag.now)))) }
{
    let size = size_unless_empty(1, lex) + front_size(2, tag.len()) + tag.len();
    push_front(out, field, size)?;
    push_unless_empty(out, 1, lex)?;
    push_bytes(out, 2, tag)
}

/// Appends a field that holds a literal with the id of a datatype, which is written even where it is 0. Where memory
/// isn't found, a front of it may be appended.
pub fn push_typed_literal(
    out: &mut Vec<u8>,
    field: u32,
    lex: &[u8],
    datatype: u64,
) -> Result<(), AllocError>
    requires { length lex.now < 2 ^ 32 }
    ensures { OnOk result (out.new.items ≡ out.old.items ++ field_of field (Bytes (literal_of lex.now (Ending.Typed datatype)))) }
{
    let size = size_unless_empty(1, lex) + number_size(3, datatype);
    push_front(out, field, size)?;
    push_unless_empty(out, 1, lex)?;
    push_number(out, 3, datatype)
}

// The field of a row that holds an entry of the table.
#[inline]
fn entry_field(table: Table) -> u32
    ensures { result ≡ entry_number table }
{
    match table {
        Table::Name => 9,
        Table::Prefix => 10,
        Table::Datatype => 11,
    }
}

/// Appends an entry's row in the field of its frame. Where memory isn't found, a front of it may be appended.
pub fn push_entry(out: &mut Vec<u8>, table: Table, id: u64, text: &[u8]) -> Result<(), AllocError>
    requires { length text.now < 2 ^ 32 }
    ensures { OnOk result (out.new.items ≡ out.old.items ++ field_of 1 (Bytes (row_of (Row.Entry table id text.now)))) }
{
    let field = entry_field(table);
    let size = size_unless_0(1, id) + size_unless_empty(2, text);
    push_front(out, 1, front_size(field, size) + size)?;
    push_front(out, field, size)?;
    push_unless_0(out, 1, id)?;
    push_unless_empty(out, 2, text)
}
