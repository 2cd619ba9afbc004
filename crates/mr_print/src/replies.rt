//! The text of a reply.

ghost use Rattle.std.specs.Prelude.{◌≡◌, ◌++◌, ◌∷◌, IfOk, OnOk};
ghost use Rattle.std.specs.Fmt.{signed_decimal};
ghost use Rattle.std.specs.List.{flat_map};
ghost use Rattle.mr_types.specs.declared.row.Reply.TheVariants as reply;
ghost use Rattle.mr_spec.specs.ReplyText.{text_of, escaped, field_text, fields_text, line_of};

use mr_base::{Blob, Memory};
use mr_types::{Reply, Value, ValueList};
use std::alloc::Global;

fn write_all(text: &mut Vec<u8>, bytes: &[u8]) -> Result<(), Memory>
    ensures { OnOk result (text.new.items ≡ text.old.items ++ bytes.now) }
{
    text.extend_from_slice(bytes)?;
    Ok(())
}

/// A byte of a text or of bytes: tab, newline, NUL and backslash print as two.
fn write_byte(text: &mut Vec<u8>, byte: u8) -> Result<(), Memory>
    ensures { OnOk result (text.new.items ≡ text.old.items ++ escaped byte) }
{
    match byte {
        b'\t' => write_all(text, b"\\t"),
        b'\n' => write_all(text, b"\\n"),
        0 => write_all(text, b"\\0"),
        b'\\' => write_all(text, b"\\\\"),
        _ => write_all(text, &[byte]),
    }
}

fn write_bytes(text: &mut Vec<u8>, bytes: &[u8]) -> Result<(), Memory>
    ensures { OnOk result (text.new.items ≡ text.old.items ++ flat_map escaped bytes.now) }
{
    for byte in bytes {
        write_byte(text, *byte)?;
    }
    Ok(())
}

fn write_number(alloc: Global, text: &mut Vec<u8>, number: i128) -> Result<(), Memory>
    ensures { OnOk result (text.new.items ≡ text.old.items ++ signed_decimal number) }
{
    let digits = number.to_string(alloc)?;
    write_all(text, digits.as_bytes())
}

/// A field: NULL, a number in decimal, or its bytes.
fn write_field(alloc: Global, text: &mut Vec<u8>, value: &Value) -> Result<(), Memory>
    ensures { OnOk result (text.new.items ≡ text.old.items ++ field_text value.now) }
{
    match value {
        Value::Null => write_all(text, b"NULL"),
        Value::Number(number) => write_number(alloc, text, *number),
        Value::Text(bytes) => write_bytes(text, bytes.as_slice()),
        Value::Bytes(bytes) => write_bytes(text, bytes.as_slice()),
    }
}

/// Fields, each behind a tab.
fn write_further(alloc: Global, text: &mut Vec<u8>, values: &[Value]) -> Result<(), Memory>
    ensures { OnOk result (text.new.items ≡ text.old.items ++ flat_map (λ v. 9 ∷ field_text v) values.now) }
{
    for value in values {
        write_all(text, b"\t")?;
        write_field(alloc, text, value)?;
    }
    Ok(())
}

/// Fields with tabs between them.
fn write_fields(alloc: Global, text: &mut Vec<u8>, values: &[Value]) -> Result<(), Memory>
    ensures { OnOk result (text.new.items ≡ text.old.items ++ fields_text values.now) }
{
    match values {
        [] => Ok(()),
        [first, further @ ..] => {
            write_field(alloc, text, first)?;
            write_further(alloc, text, further)
        }
    }
}

/// A row's line.
fn write_line(alloc: Global, text: &mut Vec<u8>, values: &ValueList) -> Result<(), Memory>
    ensures { OnOk result (text.new.items ≡ text.old.items ++ line_of values.now) }
{
    write_fields(alloc, text, values.as_slice())?;
    write_all(text, b"\n")
}

fn rows_text(alloc: Global, rows: &[ValueList]) -> Result<Vec<u8>, Memory>
    ensures { IfOk result (λ text. text.items ≡ text_of (reply.Rows rows.now)) }
{
    let count = rows.len();
    let mut text = format!(in alloc; "ROWS {count}\n")?.into_bytes();
    for row in rows {
        write_line(alloc, &mut text, row)?;
    }
    Ok(text)
}

/// The lines of a reply.
pub fn reply_text(alloc: Global, reply: &Reply) -> Result<Blob, Memory>
    ensures { IfOk result (λ text. text ≡ text_of reply.now) }
{
    let text = match reply {
        Reply::Ok(count) => format!(in alloc; "OK {count}\n")?.into_bytes(),
        Reply::Refused(code) => format!(in alloc; "ERROR {code}\n")?.into_bytes(),
        Reply::Rows(rows) => rows_text(alloc, rows.as_slice())?,
    };
    Ok(Blob::from_vec(text))
}
