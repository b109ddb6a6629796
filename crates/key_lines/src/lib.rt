//! The lines of a table of rows with how their keys stand to one another: a tool of tests.
//!
//! `standings` copies the lines. A line `by PART ..` says how the rows of the lines behind it are compared, up to an empty line: each PART
//! is `binary`, `nocase` or `rtrim`, which may go on with `,desc` and `,nulls_last`. A row is a line of words, one for each part: `null`, an
//! integer, `text:HEX` and `blob:HEX` for the bytes of a text and a blob, and any other word is a text itself. Below the rows stands a
//! line for each of them: how its key stands to that of each row in turn, `<`, `=` or `>`. A line that begins with `--` says nothing.
#![tactic(auto)]

mod lines;
mod rows;

pub use lines::standings;
