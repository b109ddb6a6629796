// Places and lists.
ghost use Rattle.std.specs.Prelude.{◌≡◌, ◌++◌, ◌∷◌, [], IfOk, OnOk};
ghost use Rattle.sql_bound.specs.Answers.{OnlyMem};

use eng_value::Cause;
use sqlite_items::Items;

/// A place as bound trees count places. One that is too large is want of memory: no list is so long.
pub fn small(place: usize) -> Result<u32, Cause>
    ensures ok { IfOk result (λ n. n ≡ place) }
    ensures mem { OnlyMem result }
{
    match u32::try_from(place) {
        Ok(number) => Ok(number),
        Err(_) => Err(Cause::Mem),
    }
}

/// One more at the end.
pub fn pushed<T: Drop>(all: &mut Items<T>, one: T) -> Result<(), Cause>
    ensures ok { OnOk result (all.new ≡ all.old ++ one ∷ []) }
    ensures mem { OnlyMem result }
{
    match all.push(one) {
        Ok(()) => Ok(()),
        Err(_) => Err(Cause::Mem),
    }
}
