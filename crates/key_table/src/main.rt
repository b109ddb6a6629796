//! The table of rows with how their keys stand to one another: a tool of tests. It reads lines and prints them with the standings, as the
//! library key_lines says.
#![tactic(auto)]

use key_lines::standings;
use std::io::{self, Write};

fn main(rt: HostRuntime) -> io::Result<()> {
    let alloc = rt.alloc();
    let text = io::read_to_string(alloc, rt.reader())?;
    let bytes = standings(alloc, text.as_str())?;
    io::writer(&rt).write_all(&bytes)
}
