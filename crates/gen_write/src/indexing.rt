// The program of a CREATE INDEX.
ghost use Rattle.std.specs.Prelude.{◌≡◌, IfOk, None, Some, if◌then◌else◌};
ghost use Rattle.gen_write.specs.Writes.{index_run, index_steps};
ghost use Rattle.vm_code.specs.Accepted.{IsAccepted};
ghost use Rattle.vm_code.specs.Machine.{Performs};

use eng_index::KeyTerm;
use eng_value::Text;
use sqlite_items::Items;
use std::alloc::{AllocError, Global};
use vm_code::{Builder, Op, Program};

/// The program of a CREATE INDEX (SQL As Understood By SQLite, "CREATE INDEX") by the terms of a key, on the table of this number and name.
/// Where the index is unique and two rows of the table are equal in all terms, none of which is NULL, the run ends with a constraint, which
/// names the table. It gives no row and writes nothing; what the catalog keeps of the index is not its work. Only memory can fail here.
pub fn compile_index(
    alloc: Global,
    table: u32,
    name: &Text,
    terms: &[KeyTerm],
    unique: bool,
) -> Result<Program, AllocError>
    ensures performs { IfOk result (λ p. Performs p (index_run table name.now terms.now unique) index_steps) }
    ensures accepted { IfOk result (λ p. IsAccepted p) }
{
    let mut b = Builder::new(alloc, Items::new(alloc));
    let cursor = b.cursor()?;
    b.op(Op::OpenRead { cursor, table })?;
    let terms = Items::from_slice(alloc, terms)?;
    let unique = name_if(unique, name)?;
    b.op(Op::BuildIndex {
        cursor,
        terms,
        unique,
    })?;
    b.op(Op::Close { cursor })?;
    b.op(Op::Halt)?;
    Ok(b.finish_program())
}

/// A copy of the name, if the index is unique.
fn name_if(unique: bool, name: &Text) -> Result<Option<Text>, AllocError>
    ensures { IfOk result (λ named. named ≡ (if unique then Some name.now else None)) }
{
    if unique {
        Ok(Some(name.clone()?))
    } else {
        Ok(None)
    }
}
