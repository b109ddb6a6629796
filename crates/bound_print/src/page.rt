// The text that is printed, line by line.
use eng_value::Cause;
use itoa::Buffer;
use std::alloc::{AllocError, Global};

/// What was printed so far. Where memory was wanting for a part of it, `into_bytes` tells that in the end.
#[derive(Drop)]
pub struct Page {
    bytes: Vec<u8>,
    /// By how many steps of two blanks a line is indented.
    depth: usize,
    is_whole: bool,
}

impl Page {
    /// An empty page. Takes no memory.
    pub fn new(alloc: Global) -> Page {
        Page {
            bytes: Vec::new(alloc),
            depth: 0,
            is_whole: true,
        }
    }

    /// Writes some bytes.
    pub fn write_bytes(&mut self, bytes: &[u8]) {
        if self.bytes.extend_from_slice(bytes).is_err() {
            self.is_whole = false;
        }
    }

    /// Writes a text.
    pub fn write(&mut self, text: &str) {
        self.write_bytes(text.as_bytes());
    }

    /// Writes a number.
    pub fn write_number(&mut self, number: u64) {
        self.write(Buffer::new().format(number));
    }

    /// Writes a place in a list, or another small number.
    pub fn write_place(&mut self, place: u32) {
        self.write_number(u64::from(place));
    }

    /// Writes the message of a cause.
    pub fn write_cause(&mut self, cause: &Cause) {
        if cause.write_text(&mut self.bytes).is_err() {
            self.is_whole = false;
        }
    }

    /// Writes what stands between the elements of a list, in front of the element of this place.
    pub fn separate(&mut self, place: usize) {
        if place > 0 {
            self.write(", ");
        }
    }

    /// Begins a line.
    pub fn begin(&mut self, text: &str) {
        for _ in 0..self.depth {
            self.write("  ");
        }
        self.write(text);
    }

    /// Ends a line.
    pub fn end(&mut self) {
        self.write("\n");
    }

    /// Writes a whole line.
    pub fn line(&mut self, text: &str) {
        self.begin(text);
        self.end();
    }

    /// Indents the lines that follow by one step more.
    pub fn indent(&mut self) {
        self.depth = self.depth.saturating_add(1);
    }

    /// Takes the last indentation back.
    pub fn outdent(&mut self) {
        self.depth = self.depth.saturating_sub(1);
    }

    /// All that was printed.
    pub fn into_bytes(self) -> Result<Vec<u8>, AllocError> {
        let Page {
            bytes,
            depth: _,
            is_whole,
        } = self;
        if is_whole { Ok(bytes) } else { Err(AllocError) }
    }
}
