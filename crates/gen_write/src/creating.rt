// The program of a CREATE TABLE.
ghost use Rattle.std.specs.Prelude.{IfOk};
ghost use Rattle.gen_write.specs.Writes.{create_run, create_steps};
ghost use Rattle.vm_code.specs.Accepted.{IsAccepted};
ghost use Rattle.vm_code.specs.Machine.{Performs};

use sqlite_items::Items;
use std::alloc::{AllocError, Global};
use vm_code::{Builder, Op, Program, SchemaChange};

/// The program of a CREATE TABLE (SQL As Understood By SQLite, "CREATE TABLE"), which adds the table's list of rows behind the
/// others. What the catalog keeps of the table is not its work. Only memory can fail.
pub fn compile_create(alloc: Global) -> Result<Program, AllocError>
    ensures performs { IfOk result (λ p. Performs p create_run create_steps) }
    ensures accepted { IfOk result (λ p. IsAccepted p) }
{
    let mut b = Builder::new(alloc, Items::new(alloc));
    b.op(Op::Schema {
        change: SchemaChange::AddTable,
    })?;
    b.op(Op::Halt)?;
    Ok(b.finish_program())
}
