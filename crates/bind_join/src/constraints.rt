// USING and NATURAL as they are written, and what ON may name (SELECT, section 2.1).
ghost use Rattle.std.specs.Prelude.{◌≡◌, ◌∷◌, ◌++◌, [], map, true, IfOk};
ghost use Rattle.sql_bound.specs.Answers.{Answers, Comes, OnlyMem};
ghost use Rattle.sql_bound.specs.Froms.{Inside, are_made, constrained, is_any, using_all};
ghost use Rattle.sql_bound.specs.Trees.{of_constraint};
ghost use Rattle.sql_bound.specs.declared.scopes.Work.{Work};
ghost use Rattle.sql_words.specs.Spelled.{name_at};

use crate::by_names::{natural_all, using_all};
use bind_scope::{copied_item, copied_level, pushed};
use bind_with::{misused, names_of};
use eng_value::Cause;
use sql_bound::{Joining, ScopeItem};
use sql_tree::{JoinConstraint, Token};
use sqlite_items::Items;
use std::alloc::Global;

/// Whether the conjuncts of a join are made and not written.
pub fn is_made(constraint: &JoinConstraint) -> bool
    ensures { result ≡ are_made (of_constraint constraint.now) }
{
    match constraint {
        JoinConstraint::Unconstrained => true,
        JoinConstraint::On(_) => false,
        JoinConstraint::Using(_) => true,
    }
}

/// NATURAL, beside which neither ON nor USING may stand.
pub fn natural_join(
    alloc: Global,
    left: &[ScopeItem],
    constraint: &JoinConstraint,
    joining: Joining,
) -> Result<Joining, Cause>
    ensures { (i : Inside) (w : Work) → Comes (constrained i left.now true (of_constraint constraint.now) joining w) result w }
{
    match constraint {
        JoinConstraint::Unconstrained => natural_all(alloc, left, joining),
        JoinConstraint::On(_) => misused(alloc, "NATURAL"),
        JoinConstraint::Using(_) => misused(alloc, "NATURAL"),
    }
}

/// USING as it is written.
pub fn using_join(
    alloc: Global,
    text: &str,
    left: &[ScopeItem],
    names: &[Token],
    joining: Joining,
) -> Result<Joining, Cause>
    ensures { Answers (using_all is_any left.now (map (name_at text.now) names.now) joining) result }
{
    let names = names_of(alloc, text, names)?;
    using_all(alloc, left, names.as_slice(), joining)
}

/// A FROM with an item more. Only memory can fail.
pub fn with_right(
    alloc: Global,
    left: &[ScopeItem],
    right: &ScopeItem,
) -> Result<Items<ScopeItem>, Cause>
    ensures ok { IfOk result (λ level. level ≡ left.now ++ right.now ∷ []) }
    ensures mem { OnlyMem result }
{
    let mut level = copied_level(alloc, left)?;
    let one = copied_item(alloc, right)?;
    pushed(&mut level, one)?;
    Ok(level)
}
