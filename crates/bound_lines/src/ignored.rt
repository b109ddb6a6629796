// Lines that tell which reads the authorizer ignores.
use crate::facts::words_of;
use eng_value::{Action, ActionKind, Text};
use sqlite_items::Items;
use std::alloc::{AllocError, Global};

/// Takes a line `.ignore TABLE COLUMN [WITHIN]` up into what is ignored. Answers whether it is such a line.
pub(crate) fn ignore(
    alloc: Global,
    ignored: &mut Items<Action>,
    line: &str,
) -> Result<bool, AllocError> {
    let words = words_of(alloc, line)?;
    match words.as_slice() {
        [kind, table, column, within @ ..] if *kind == ".ignore" => {
            ignored.push(read_of(alloc, table, column, within)?)?;
            Ok(within.len() < 2)
        }
        _ => Ok(false),
    }
}

/// The read of a column, in the view or trigger of the first word that is left, if there is one.
fn read_of(alloc: Global, table: &str, column: &str, words: &[&str]) -> Result<Action, AllocError> {
    Ok(Action {
        kind: ActionKind::Read,
        first: Text::from_str(alloc, table)?,
        second: Text::from_str(alloc, column)?,
        within: first_of(alloc, words)?,
    })
}

fn first_of(alloc: Global, words: &[&str]) -> Result<Option<Text>, AllocError> {
    match words {
        [first, ..] => Ok(Some(Text::from_str(alloc, first)?)),
        [] => Ok(None),
    }
}
