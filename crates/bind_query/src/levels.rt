// FROMs around one another.
ghost use Rattle.std.specs.Prelude.{◌≡◌, ◌∷◌, IfOk};
ghost use Rattle.bind_query.specs.Scopes.{own_of};
ghost use Rattle.sql_bound.specs.Answers.{OnlyMem};

use bind_scope::{copied_level, pushed};
use eng_value::Cause;
use sql_bound::ScopeItem;
use sqlite_items::Items;
use std::alloc::Global;

/// A FROM in front of others.
pub fn with_level(
    alloc: Global,
    own: Items<ScopeItem>,
    levels: &[Items<ScopeItem>],
) -> Result<Items<Items<ScopeItem>>, Cause>
    ensures ok { IfOk result (λ all. all ≡ own ∷ levels.now) }
    ensures mem { OnlyMem result }
{
    let mut all = Items::new(alloc);
    pushed(&mut all, own)?;
    for level in levels {
        let copy = copied_level(alloc, level.as_slice())?;
        pushed(&mut all, copy)?;
    }
    Ok(all)
}

/// The own FROM, of those around one another.
pub(crate) fn own_level(levels: &[Items<ScopeItem>]) -> &[ScopeItem]
    ensures { result.now ≡ own_of levels.now }
{
    match levels {
        [] => &[],
        [own, ..] => own.as_slice(),
    }
}
