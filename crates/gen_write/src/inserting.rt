// The program of an INSERT.
ghost use Rattle.std.specs.Prelude.{IfOk};
ghost use Rattle.gen_write.specs.Writes.{NamesWhatIsThere, put_run, put_steps};
ghost use Rattle.vm_code.specs.Accepted.{IsAccepted};
ghost use Rattle.vm_code.specs.Machine.{Performs};

use crate::rows::{TABLE, put_rows};
use crate::source::keep_rows;
use sql_meaning::BoundInsert;
use sqlite_items::Items;
use std::alloc::{AllocError, Global};
use vm_code::{Builder, Op, Program};

/// The program of an INSERT of rows of expressions (SQL As Understood By SQLite, "INSERT"). The source is evaluated whole first: where
/// a row of it is bad the run ends with the causes of the first that is, and changes nothing. Then each row in turn is stored by the
/// affinities of the columns, with the defaults of those without a value, and put under its rowid, which is drawn where none is given. The
/// run ends with the causes of the first row that cannot be stored; with `Mismatch` at a rowid that is no integer, and `Full` where none is
/// left; and with a constraint, which names the table, at the first NULL that may not be, CHECK that is false (or its causes, where it is
/// bad) or row in the way, which has the same rowid or shares a key, in this order. Only memory can fail here.
pub fn compile_insert(alloc: Global, insert: &BoundInsert) -> Result<Program, AllocError>
    ensures performs { IfOk result (λ p. Performs p (put_run insert.now) (put_steps insert.now)) }
    ensures accepted { IfOk result (λ p. NamesWhatIsThere insert.now → IsAccepted p) }
{
    let mut b = Builder::new(alloc, Items::new(alloc));
    let causes = b.take()?;
    b.op(Op::Null { to: causes })?;
    let source = keep_rows(alloc, &mut b, insert.rows.as_slice(), causes)?;
    b.cursor()?;
    b.cursor()?;
    b.op(Op::OpenWrite {
        cursor: TABLE,
        table: insert.table,
    })?;
    put_rows(alloc, &mut b, insert, causes, source.as_slice())?;
    b.op(Op::Close { cursor: TABLE })?;
    b.op(Op::Halt)?;
    Ok(b.finish_program())
}
