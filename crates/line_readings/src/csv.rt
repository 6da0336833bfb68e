//! Tables as comma-separated values, a line a row (RFC 4180).
ghost use Rattle.std.specs.Prelude.{◌≡◌, ◌++◌, OnOk, decimal};
ghost use Rattle.line_readings.specs.Tables as tables;

use itoa::Buffer;
use sentence_parts::WordsRef;
use std::alloc::AllocError;

/// A cell of a table.
#[derive(Drop)]
pub enum Cell<'a> {
    /// A number, in decimal.
    Number { number: usize },
    /// Words, in quotes where they have a comma, a quote or the end of a line.
    Words { words: WordsRef<'a> },
}

/// A number.
pub fn number<'a>(number: usize) -> Cell<'a>
    ensures { result ≡ Cell.Number number }
{
    Cell::Number { number }
}

/// Words; where there are none the cell is empty.
pub fn words<'a>(words: &'a str) -> Cell<'a>
    ensures { result ≡ Cell.Words words.now }
{
    Cell::Words {
        words: WordsRef::new(words),
    }
}

/// Appends a number in decimal.
pub fn push_number(out: &mut Vec<u8>, number: usize) -> Result<(), AllocError>
    ensures { OnOk result (out.new.items ≡ out.old.items ++ decimal number) }
{
    let mut digits = Buffer::new();
    out.extend_from_slice(digits.format(number).as_bytes())
}

// Appends an octet of a field in quotes.
fn push_twice(out: &mut Vec<u8>, octet: u8) -> Result<(), AllocError>
    ensures { OnOk result (out.new.items ≡ out.old.items ++ tables.twice octet) }
{
    if octet == b'"' {
        return out.extend_from_slice(b"\"\"");
    }
    out.push(octet)?;
    Ok(())
}

fn push_doubled(out: &mut Vec<u8>, octets: &[u8]) -> Result<(), AllocError>
    ensures { OnOk result (out.new.items ≡ out.old.items ++ tables.doubled octets.now) }
{
    for octet in octets {
        push_twice(out, *octet)?;
    }
    Ok(())
}

// Appends a field in quotes, with each quote in it doubled.
fn push_quoted(out: &mut Vec<u8>, octets: &[u8]) -> Result<(), AllocError>
    ensures { OnOk result (out.new.items ≡ out.old.items ++ tables.quoted octets.now) }
{
    out.push(b'"')?;
    push_doubled(out, octets)?;
    out.push(b'"')?;
    Ok(())
}

// Whether a field with this octet stands in quotes.
fn is_special(octet: u8) -> bool
    ensures { result ≡ tables.is_special octet }
{
    octet == b',' || octet == b'"' || octet == b'\n' || octet == b'\r'
}

fn has_special(octets: &[u8]) -> bool
    ensures { result ≡ tables.has_special octets.now }
{
    octets.iter().any(|octet| is_special(*octet))
}

fn push_field(out: &mut Vec<u8>, octets: &[u8]) -> Result<(), AllocError>
    ensures { OnOk result (out.new.items ≡ out.old.items ++ tables.field octets.now) }
{
    if has_special(octets) {
        return push_quoted(out, octets);
    }
    out.extend_from_slice(octets)
}

fn push_content(out: &mut Vec<u8>, cell: &Cell<'_>) -> Result<(), AllocError>
    ensures { OnOk result (out.new.items ≡ out.old.items ++ tables.content cell.now) }
{
    match cell {
        Cell::Number { number } => push_number(out, *number),
        Cell::Words { words } => push_field(out, words.words().as_bytes()),
    }
}

fn push_cell(out: &mut Vec<u8>, cell: &Cell<'_>) -> Result<(), AllocError>
    ensures { OnOk result (out.new.items ≡ out.old.items ++ tables.cell cell.now) }
{
    out.push(b',')?;
    push_content(out, cell)
}

fn push_cells(out: &mut Vec<u8>, cells: &[Cell<'_>]) -> Result<(), AllocError>
    ensures { OnOk result (out.new.items ≡ out.old.items ++ tables.cells cells.now) }
{
    for cell in cells {
        push_cell(out, cell)?;
    }
    Ok(())
}

/// Appends a row: a node, the cells after it, and the end of the line. It fails only where memory runs out.
pub fn push_row(out: &mut Vec<u8>, node: u32, cells: &[Cell<'_>]) -> Result<(), AllocError>
    ensures { OnOk result (out.new.items ≡ out.old.items ++ tables.row_text node cells.now) }
{
    push_number(out, node as usize)?;
    push_cells(out, cells)?;
    out.push(b'\n')?;
    Ok(())
}
