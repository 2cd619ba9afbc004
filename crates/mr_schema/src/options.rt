//! The options in a table's comment.

ghost use Rattle.std.specs.Prelude.{◌≡◌, Option, Some, None, Result, Ok, Err, ℕ, List, IfOk, length, ◌≤◌};
ghost use Rattle.std.specs.Option.{option_map};
ghost use Rattle.mr_types.specs.Values.{Answers};
ghost use Rattle.mr_spec.specs.TtlOptions.{behind as behind_of, without_zeros as without_zeros_of, duration_of as duration_in, with_duration as and_duration, with_stamp_column as and_column, with_part as and_part, options_of};
ghost use Rattle.mr_schema.specs.Said.{said, Says};

use mr_base::Blob;
use mr_types::{Kind, Refused, Value, convert};
use std::alloc::Global;

/// How long rows live, in seconds, and the column that holds their stamp, as a comment says it.
#[derive(Drop)]
pub struct CommentOptions {
    pub duration: Option<u64>,
    pub column: Option<Blob>,
}

/// What stands behind these bytes, where the text begins with them.
fn behind<'a>(front: &[u8], bytes: &'a [u8]) -> Option<&'a [u8]>
    ensures { option_map (λ r. r.now) result ≡ behind_of front.now bytes.now }
{
    bytes.strip_prefix(front)
}

/// The digits without the zeros in front.
fn without_zeros(digits: &[u8]) -> &[u8]
    ensures { result.now ≡ without_zeros_of digits.now }
{
    let mut at = 0;
    while at < digits.len() && digits[at] == b'0' {
        at += 1;
    }
    &digits[at..]
}

/// The number that digits write, from 1 to 2^63 - 1, else 1064.
fn duration_of(alloc: Global, digits: &[u8]) -> Result<u64, Refused>
    ensures { Answers result (duration_in digits.now) }
{
    let text = Value::Text(Blob::from_slice(alloc, without_zeros(digits))?);
    match convert(alloc, &text, Kind::BigInt) {
        Ok(Value::Number(number)) => {
            if number < 1 || number >= 0x8000_0000_0000_0000 {
                return Err(Refused::Sql(1064));
            }
            Ok(number as u64)
        }
        Err(Refused::Memory) => Err(Refused::Memory),
        Ok(_) | Err(Refused::Sql(_)) => Err(Refused::Sql(1064)),
    }
}

impl CommentOptions {
    /// With one part of the comment more, or 1064.
    fn with_part(self, alloc: Global, part: &[u8]) -> Result<CommentOptions, Refused>
        ensures { Says result (and_part (said self) part.now) }
    {
        if let Some(digits) = behind(b"ttl_duration=", part) {
            if self.duration.is_some() {
                return Err(Refused::Sql(1064));
            }
            let duration = duration_of(alloc, digits)?;
            return Ok(CommentOptions {
                duration: Some(duration),
                column: self.column,
            });
        }
        if let Some(name) = behind(b"ttl_col=", part) {
            if self.column.is_some() {
                return Err(Refused::Sql(1064));
            }
            return Ok(CommentOptions {
                duration: self.duration,
                column: Some(Blob::from_slice(alloc, name)?),
            });
        }
        Ok(self)
    }

    /// What a comment says, or 1064. Parts other than these two options have no meaning.
    pub fn parse(alloc: Global, text: &[u8]) -> Result<CommentOptions, Refused>
        ensures { Says result (options_of text.now) }
    {
        let mut options = CommentOptions {
            duration: None,
            column: None,
        };
        let mut start = 0;
        for (i, byte) in text.iter().enumerate() {
            if *byte == b';' {
                options = options.with_part(alloc, &text[start..i])?;
                start = i + 1;
            }
        }
        let options = options.with_part(alloc, &text[start..])?;
        if options.column.is_some() && options.duration.is_none() {
            return Err(Refused::Sql(1064));
        }
        Ok(options)
    }
}
