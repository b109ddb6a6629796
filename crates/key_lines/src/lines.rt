// The lines of the table.
use crate::rows::{key_of, parts_of};
use eng_key::KeyPart;
use eng_value::Blob;
use std::alloc::{AllocError, Global};
use std::cmp::Ordering;

/// The lines, with how the keys of the rows stand to one another. Only memory can fail.
pub fn standings(alloc: Global, text: &str) -> Result<Vec<u8>, AllocError> {
    let mut page = Vec::new(alloc);
    let mut group = Group::new(alloc);
    for line in text.lines() {
        group.take(alloc, &mut page, line)?;
        page.extend_from_slice(line.as_bytes())?;
        page.push(b'\n')?;
    }
    group.print(&mut page)?;
    Ok(page)
}

/// Rows that are compared with one another.
#[derive(Drop)]
struct Group {
    parts: Vec<KeyPart>,
    keys: Vec<Blob>,
}

impl Group {
    fn new(alloc: Global) -> Group {
        Group {
            parts: Vec::new(alloc),
            keys: Vec::new(alloc),
        }
    }

    /// Takes a line up; one that is empty ends the group.
    fn take(&mut self, alloc: Global, page: &mut Vec<u8>, line: &str) -> Result<(), AllocError> {
        if line.is_empty() {
            self.print(page)?;
            *self = Group::new(alloc);
            return Ok(());
        }
        if line.starts_with("--") {
            return Ok(());
        }
        match line.strip_prefix("by ") {
            Some(words) => self.parts = parts_of(alloc, words)?,
            None => self.keys.push(key_of(alloc, line, &self.parts)?)?,
        }
        Ok(())
    }

    fn print(&self, page: &mut Vec<u8>) -> Result<(), AllocError> {
        for key in &self.keys {
            page.extend_from_slice(b"  ")?;
            print_standings(page, key, &self.keys)?;
            page.push(b'\n')?;
        }
        Ok(())
    }
}

fn print_standings(page: &mut Vec<u8>, key: &Blob, others: &[Blob]) -> Result<(), AllocError> {
    for other in others {
        page.push(match key.as_slice().cmp(&other.as_slice()) {
            Ordering::Less => b'<',
            Ordering::Equal => b'=',
            Ordering::Greater => b'>',
        })?;
    }
    Ok(())
}
