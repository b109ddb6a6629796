// White space and comments (SQL As Understood By SQLite, "Comment Syntax").
ghost use Rattle.std.specs.Prelude.{◌≡◌, ◌≤◌, length};
ghost use Rattle.sql_lex.specs.Pieces.{comment_width, is_space, line_width};

use crate::front::{begins_with, behind};

/// Whether a byte is white space: space, tab, LF, FF or CR. A vertical tab is none.
pub(crate) fn is_space(byte: u8) -> bool
    ensures { result ≡ is_space byte }
{
    matches!(byte, b' ' | b'\t' | b'\n' | b'\x0c' | b'\r')
}

/// How many bytes stand in front of the end of the line.
pub(crate) fn line_width(bytes: &[u8]) -> usize
    ensures value { result ≡ line_width bytes.now }
    ensures within { result ≤ length bytes.now }
{
    bytes.iter().take_while(|byte| **byte != b'\n').count()
}

/// How many bytes there are up to and with `*/`, or to the end of the text.
pub(crate) fn comment_width(bytes: &[u8]) -> usize
    ensures value { result ≡ comment_width bytes.now }
    ensures within { result ≤ length bytes.now }
{
    for (i, byte) in bytes.iter().enumerate() {
        if *byte == b'*' && begins_with(b'/', behind(bytes, i + 1)) {
            return i + 2;
        }
    }
    bytes.len()
}
