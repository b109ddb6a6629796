// The program of a statement that does nothing.
ghost use Rattle.std.specs.Prelude.{IfOk};
ghost use Rattle.gen_write.specs.Writes.{nothing_run, nothing_steps};
ghost use Rattle.vm_code.specs.Accepted.{IsAccepted};
ghost use Rattle.vm_code.specs.Machine.{Performs};

use sqlite_items::Items;
use std::alloc::{AllocError, Global};
use vm_code::{Builder, Op, Program};

/// The program of a statement that gives no row and writes nothing, as one with IF EXISTS where there is no such table. Only memory
/// can fail.
pub fn compile_nothing(alloc: Global) -> Result<Program, AllocError>
    ensures performs { IfOk result (λ p. Performs p nothing_run nothing_steps) }
    ensures accepted { IfOk result (λ p. IsAccepted p) }
{
    let mut b = Builder::new(alloc, Items::new(alloc));
    b.op(Op::Halt)?;
    Ok(b.finish_program())
}
