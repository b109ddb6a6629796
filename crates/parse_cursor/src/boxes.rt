// Trees in boxes.

ghost use Rattle.std.specs.Prelude.{◌≡◌, IfOk, IfErr};
ghost use Rattle.parse_cursor.specs.declared.error.ParseError.TheVariants as error;

use crate::error::ParseError;
use sqlite_items::Boxed;
use std::alloc::Global;

/// A tree in a box of its own.
pub fn boxed<T: Drop>(alloc: Global, tree: T) -> Result<Boxed<T>, ParseError>
    ensures tree { IfOk result (λ found. found ≡ tree) }
    ensures memory { IfErr result (λ e. e ≡ error.Memory) }
{
    Ok(Boxed::new(alloc, tree)?)
}
