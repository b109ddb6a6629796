// How deep calls may stand in one another.
ghost use Rattle.std.specs.Prelude.{◌≡◌, ◌+◌, IfOk};
ghost use Rattle.sql_bound.specs.Answers.{OnlyMem};

use eng_value::Cause;

/// How deep calls may stand in one another.
pub const STEPS: u32 = 1_000_000;

/// One step less. At none it is want of memory: of the stack.
pub(crate) fn less(fuel: u32) -> Result<u32, Cause>
    ensures ok { IfOk result (λ n. n + 1 ≡ fuel) }
    ensures mem { OnlyMem result }
{
    match fuel.checked_sub(1) {
        Some(n) => Ok(n),
        None => Err(Cause::Mem),
    }
}
