// IN.
ghost use Rattle.std.specs.Prelude.{◌≡◌, IfOk};
ghost use Rattle.sql_bound.specs.Answers.{OnlyMem};
ghost use Rattle.sql_bound.specs.Expressions.{in_query_of};
ghost use Rattle.sql_bound.specs.Operands.{in_of, member_sides, result_operand, sides_of};

use crate::collations::{collation_of, explicit_of, first_explicit, or_binary, or_else};
use crate::leaves::bare;
use crate::lists::trees_of;
use bound_tree::BoundExpr;
use eng_value::{Affinity, Cause, Sides};
use sql_bound::{Operand, ResultColumn};
use sqlite_items::Items;
use std::alloc::Global;

/// How an operand is compared with those of a list, which have no affinity.
fn member_sides(a: &Operand) -> Sides
    ensures { result ≡ member_sides a.now }
{
    Sides {
        left: a.affinity,
        right: Affinity::None,
        collation: or_binary(collation_of(a)),
    }
}

/// `a IN (others)`. Only memory can fail.
pub fn in_of(alloc: Global, a: Operand, others: Items<Operand>) -> Result<Operand, Cause>
    ensures ok { IfOk result (λ x. x ≡ in_of a others) }
    ensures mem { OnlyMem result }
{
    let sides = member_sides(&a);
    let explicit = or_else(a.explicit, first_explicit(others.as_slice()));
    let others = trees_of(alloc, others)?;
    let tree = BoundExpr::member(alloc, sides, a.tree, others)?;
    Ok(bare(explicit, tree))
}

/// How an operand is compared with a query's column.
fn query_sides(a: &Operand, column: &ResultColumn) -> Sides
    ensures { result ≡ sides_of a.now (result_operand a.now.tree column.now) }
{
    let explicit = or_else(a.explicit, column.explicit);
    let by_column = or_else(a.column, column.column);
    Sides {
        left: a.affinity,
        right: column.affinity,
        collation: or_binary(or_else(explicit, by_column)),
    }
}

/// `a IN (query)`, which compares as `a = y` with the query's column y; the query is told by its unit and what is handed over to it.
/// Only memory can fail.
pub fn in_query_of(
    alloc: Global,
    a: Operand,
    column: &ResultColumn,
    unit: u32,
    handed: Items<BoundExpr>,
) -> Result<Operand, Cause>
    ensures ok { IfOk result (λ x. x ≡ in_query_of a column.now unit handed) }
    ensures mem { OnlyMem result }
{
    let sides = query_sides(&a, column);
    let explicit = explicit_of(&a);
    let tree = BoundExpr::in_query(alloc, sides, a.tree, unit, handed)?;
    Ok(bare(explicit, tree))
}
