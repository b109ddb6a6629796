// Cutting a script into its parts.
ghost use Rattle.std.specs.Prelude.{◌≡◌, ◌≢◌, ◌+◌, ◌-◌, ◌<◌, ◌≤◌, ◌++◌, ◌==◌, ◌&&◌, [], take, drop, length, slice_index, Option, IfSome};
ghost use Rattle.std.specs.Str.{IsCharBoundary, IsUtf8};
ghost use Rattle.sql_lex.specs.Pieces.{begins_with};
ghost use Rattle.sql_meaning.specs.Parts.{end_of, line_end, part_of, parts_from, without_return};
ghost use Rattle.sql_shell.specs.Cuts.{part_list};

use sql_lex::{blank_width, statement_end};

/// A part of a script.
#[derive(Clone, Copy)]
pub(crate) enum Part<'a> {
    /// The text of a statement, from its first token on.
    Statement(&'a str),
    /// A dot line, without the end of its line.
    DotLine(&'a str),
}

/// The part at the front of a script, if one stands there, and what is behind it.
#[derive(Clone, Copy)]
pub(crate) struct Front<'a> {
    pub part: Option<Part<'a>>,
    pub rest: &'a str,
    /// Whether a line begins behind it.
    pub is_fresh: bool,
}

/// The place of the line feed that ends the line with which a text begins.
fn line_end(text: &str) -> Option<usize>
    ensures end { result ≡ line_end text.now }
    ensures within { IfSome result (λ end. end < length text.now) }
    ensures feed { IfSome result (λ end. slice_index text.now end ≡ 10) }
{
    let bytes = text.as_bytes();
    for (place, byte) in bytes.iter().enumerate() {
        if *byte == b'\n' {
            return Some(place);
        }
    }
    None
}

/// A line without the carriage return at its end, if it has one.
fn without_return(line: &str) -> &str
    ensures { result.now ≡ without_return line.now }
{
    line.strip_suffix('\r').unwrap_or(line)
}

/// Where the part ends with which a text begins: a dot line at its line feed, a statement at its `;`. The text may be cut there.
fn part_end(is_line: bool, text: &str) -> Option<usize>
    ensures end { result ≡ end_of is_line text.now }
    ensures within { IfSome result (λ end. end < length text.now) }
    ensures front { IfSome result (λ end. IsCharBoundary text.now end) }
    ensures back { IfSome result (λ end. IsCharBoundary text.now (end + 1)) }
{
    if is_line {
        line_end(text)
    } else {
        statement_end(text)
    }
}

/// The part that a text in front of its end is. A statement without a token is none.
fn part_of(is_line: bool, text: &str) -> Option<Part<'_>>
    ensures { part_list result ≡ part_of is_line text.now }
{
    if is_line {
        Some(Part::DotLine(without_return(text)))
    } else if text.is_empty() {
        None
    } else {
        Some(Part::Statement(text))
    }
}

/// Whether a dot line begins here: a line does, with a dot.
fn begins_dot_line(is_fresh: bool, text: &str) -> bool
    ensures { result ≡ (is_fresh && begins_with 46 text.now) }
{
    is_fresh
        && match text.as_bytes() {
            [first, ..] => *first == b'.',
            [] => false,
        }
}

/// Whether the byte at a place ends a line.
fn ends_line(text: &str, place: usize) -> bool
    requires { place < length text.now }
    ensures { result ≡ (slice_index text.now place == 10) }
{
    text.as_bytes()[place] == b'\n'
}

/// A part that takes so many bytes, and what is behind it.
fn cut_behind<'a>(part: Option<Part<'a>>, text: &'a str, width: usize) -> Front<'a>
    requires some { 0 < width }
    requires within { width ≤ length text.now }
    requires back { IsCharBoundary text.now width }
    ensures part { part_list result.part ≡ part_list part.entry }
    ensures rest { result.rest.now ≡ drop width text.now }
    ensures utf8 { IsUtf8 result.rest.now }
    ensures fresh { result.is_fresh ≡ (slice_index text.now (width - 1) == 10) }
{
    let (_, rest) = text.split_at(width);
    Front {
        part,
        rest,
        is_fresh: ends_line(text, width - 1),
    }
}

/// Cuts the rest of a script, which is not empty, behind its first part, or behind white space or a comment in front of it.
/// `is_fresh` says that a line begins here. What is pending at the end is a part only where `pending_runs` says so.
pub(crate) fn cut(text: &str, is_fresh: bool, pending_runs: bool) -> Front<'_>
    requires some { text.now ≢ [] }
    ensures parts { parts_from pending_runs is_fresh 0 text.now
        ≡ part_list result.part ++ parts_from pending_runs result.is_fresh 0 result.rest.now }
    ensures shorter { length result.rest.now < length text.now }
    ensures utf8 { IsUtf8 result.rest.now }
{
    let blank = blank_width(text);
    if blank > 0 {
        return cut_behind(None, text, blank);
    }
    let is_line = begins_dot_line(is_fresh, text);
    match part_end(is_line, text) {
        Some(end) => cut_behind(part_of(is_line, text.split_at(end).0), text, end + 1),
        None if pending_runs => cut_behind(part_of(is_line, text), text, text.len()),
        None => cut_behind(None, text, text.len()),
    }
}
