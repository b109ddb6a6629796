//! The table of statements with what they are bound to: a tool of tests. It reads lines and prints them with their outcomes, as the
//! library bound_lines says.
#![tactic(auto)]

use bound_lines::outcomes;
use std::io::{self, Write};

fn main(rt: HostRuntime) -> io::Result<()> {
    let alloc = rt.alloc();
    let text = io::read_to_string(alloc, rt.reader())?;
    let bytes = outcomes(alloc, text.as_str())?;
    io::writer(&rt).write_all(&bytes)
}
