//! What texts spell: a table of texts with the statements, printed in a short form.

mod printer;
mod table;

use crate::texts::printer::printed;
use crate::texts::table::ROWS;
use mr_parse::parse_statement;
use mr_types::Refused;
use std::alloc::{AllocError, Global};

/// The printed statement, or the number of the refusal.
fn answer(alloc: Global, text: &[u8]) -> Result<Vec<u8>, AllocError> {
    match parse_statement(alloc, text) {
        Ok(statement) => printed(alloc, &statement),
        Err(Refused::Sql(code)) => Ok(code.to_string(alloc)?.into_bytes()),
        Err(Refused::Memory) => Err(AllocError),
    }
}

/// A row of a table: a text, 0xfd and what it spells.
fn halves(row: &[u8]) -> (&[u8], &[u8]) {
    for (i, byte) in row.iter().enumerate() {
        if *byte == 0xfd {
            return (&row[..i], &row[i + 1..]);
        }
    }
    (row, row)
}

#[test]
fn texts_spell_statements(rt: HostRuntime) -> Result<(), AllocError> {
    let alloc = rt.alloc();
    for row in ROWS.split(|byte| *byte == 0xfe).skip(1) {
        let (text, spelled) = halves(row);
        let found = answer(alloc, text)?;
        assert!(rt; found.as_slice() == spelled, "{text:?}");
    }
    Ok(())
}

/// As many bytes as a text may have at most, and one more.
#[test]
fn long_texts(rt: HostRuntime) -> Result<(), AllocError> {
    let alloc = rt.alloc();
    let mut text = Vec::new(alloc);
    text.extend_from_slice(b"COMMIT")?;
    text.resize(1048576, b' ')?;
    let spelled = answer(alloc, &text)?;
    assert!(rt; spelled.as_slice() == b"commit".as_slice());
    text.push(b' ')?;
    let refused = answer(alloc, &text)?;
    assert!(rt; refused.as_slice() == b"1153".as_slice());
    Ok(())
}
