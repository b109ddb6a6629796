// PRAGMA.
ghost use Rattle.std.specs.Prelude.{◌≡◌};
ghost use Rattle.sql_bound.specs.Answers.{Answers};
ghost use Rattle.sql_bound.specs.Statements.{pragma_bound};
ghost use Rattle.sql_words.specs.Spelled.{is_off};
ghost use Rattle.bind_command.specs.Tops.{top_of};

use bind_entry::name;
use bind_name::slice_of;
use bind_scope::text_of;
use bound_tree::BoundCommand;
use eng_catalog::Catalog;
use eng_entry::is_same_name;
use eng_value::{Cause, NameKind};
use sql_bound::HostFacts;
use sql_tree::{Pragma, Token};
use std::alloc::Global;

/// The one pragma that there is.
const FOREIGN_KEYS: &str = "foreign_keys";

/// `foreign_keys = OFF`, which does nothing; there is no other (PRAGMA Statements, "PRAGMA foreign_keys").
pub fn bind_pragma(
    alloc: Global,
    text: &str,
    catalog: &Catalog,
    facts: &HostFacts,
    pragma: &Pragma,
) -> Result<BoundCommand, Cause>
    ensures { Answers (pragma_bound (top_of catalog.now facts.now text.now) pragma.now) result }
{
    let name = name(alloc, text, &pragma.name)?;
    if is_same_name(name.as_bytes(), FOREIGN_KEYS.as_bytes()) && is_off(text, &pragma.value) {
        return Ok(BoundCommand::Pragma(text_of(alloc, FOREIGN_KEYS)?));
    }
    Err(Cause::Unknown(NameKind::Pragma, name))
}

fn is_off(text: &str, value: &Option<Token>) -> bool
    ensures { result ≡ is_off text.now value.now }
{
    match value {
        Some(word) => is_same_name(slice_of(text, word), b"OFF"),
        None => false,
    }
}
