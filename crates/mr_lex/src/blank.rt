//! White space and comments.

ghost use Rattle.std.specs.Prelude.{◌≡◌, ◌≤◌, true, length, IfSome};
ghost use Rattle.mr_lex.specs.Blank.{begins_line as line_begins, begins_block as block_begins, line_length, block_length, blank_front};

use crate::bytes::is_space;

fn begins_line(bytes: &[u8]) -> bool
    ensures { result ≡ line_begins true bytes.now }
{
    match bytes {
        [] => false,
        [a] => *a == b'#',
        [a, b] => *a == b'#' || (*a == b'-' && *b == b'-'),
        [a, b, c, ..] => *a == b'#' || (*a == b'-' && *b == b'-' && is_space(*c)),
    }
}

fn begins_block(bytes: &[u8]) -> bool
    ensures { result ≡ block_begins bytes.now }
{
    match bytes {
        [a, b, ..] => *a == b'/' && *b == b'*',
        _ => false,
    }
}

/// The bytes of the line, its newline among them.
fn line_len(bytes: &[u8]) -> usize
    ensures within { result ≤ length bytes.now }
    ensures len { result ≡ line_length bytes.now }
{
    let mut at = 0;
    while at < bytes.len() {
        if bytes[at] == b'\n' {
            return at + 1;
        }
        at += 1;
    }
    at
}

/// Behind `/*`: the bytes up to the next `*/` and with it, None where there is none.
fn block_len(bytes: &[u8]) -> Option<usize>
    ensures within { IfSome result (λ n. n ≤ length bytes.now) }
    ensures len { result ≡ block_length bytes.now }
{
    let mut at = 0;
    while at + 1 < bytes.len() {
        if bytes[at] == b'*' && bytes[at + 1] == b'/' {
            return Some(at + 2);
        }
        at += 1;
    }
    None
}

/// The bytes of the white space byte or the whole comment in front, 0 where neither stands there.
pub(crate) fn blank_len(bytes: &[u8]) -> usize
    ensures within { result ≤ length bytes.now }
    ensures len { result ≡ blank_front true bytes.now }
{
    match bytes {
        [] => 0,
        [first, rest @ ..] => {
            if is_space(*first) {
                1
            } else if begins_line(bytes) {
                1 + line_len(rest)
            } else if begins_block(bytes) {
                match block_len(&rest[1..]) {
                    None => 0,
                    Some(n) => 2 + n,
                }
            } else {
                0
            }
        }
    }
}
