// The program of a DROP TABLE.
ghost use Rattle.std.specs.Prelude.{IfOk};
ghost use Rattle.gen_write.specs.Writes.{drop_run, drop_steps};
ghost use Rattle.vm_code.specs.Accepted.{IsAccepted};
ghost use Rattle.vm_code.specs.Machine.{Performs};

use sqlite_items::Items;
use std::alloc::{AllocError, Global};
use vm_code::{Builder, Op, Program, SchemaChange};

/// The program of a DROP TABLE (SQL As Understood By SQLite, "DROP TABLE"), which takes all rows from the table of this number. The
/// numbers of the others stay, and no row counts as changed. What the catalog keeps of the table is not its work. Only memory can fail.
pub fn compile_drop(alloc: Global, table: u32) -> Result<Program, AllocError>
    ensures performs { IfOk result (λ p. Performs p (drop_run table) drop_steps) }
    ensures accepted { IfOk result (λ p. IsAccepted p) }
{
    let mut b = Builder::new(alloc, Items::new(alloc));
    b.op(Op::Schema {
        change: SchemaChange::DropTable { table },
    })?;
    b.op(Op::Halt)?;
    Ok(b.finish_program())
}
