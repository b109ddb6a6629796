// SELECTs, and what they give.
ghost use Rattle.std.specs.Prelude.{◌≡◌, map, IfOk};
ghost use Rattle.sql_bound.specs.Answers.{Becomes, OnlyMem};
ghost use Rattle.sql_bound.specs.Compounds.{gathered_alone, select_given};
ghost use Rattle.sql_bound.specs.Cores.{core_of, key_of, without_aggregates};
ghost use Rattle.sql_bound.specs.Operands.{collation_of_result};
ghost use Rattle.bind_result.specs.Units.{groups_of};

use crate::orders::or_binary;
use bind_column::collation_of_result;
use bind_operand::collation_of;
use bind_scope::pushed;
use bound_tree::{
    BoundAggregate, BoundCore, BoundExpr, BoundGroups, BoundKey, BoundPart, BoundTerm,
};
use eng_value::{Cause, Collation};
use sql_bound::{BoundSelect, Found, Gathered, Given, Operand, ResultColumn, Shown, Work};
use sqlite_items::Items;
use std::alloc::Global;
use std::mem;

/// An expression of GROUP BY, under its collation.
pub fn key_of(a: Operand) -> BoundKey
    ensures { result ≡ key_of a }
{
    let collation = or_binary(collation_of(&a));
    BoundKey {
        expr: a.tree,
        collation,
    }
}

/// The groups of a grouped query.
fn groups_of(
    grouped: bool,
    keys: Items<BoundKey>,
    aggregates: Items<BoundAggregate>,
    having: Items<BoundExpr>,
) -> Option<BoundGroups>
    ensures { result ≡ groups_of grouped keys aggregates having }
{
    if grouped {
        Some(BoundGroups {
            keys,
            aggregates,
            having,
        })
    } else {
        None
    }
}

/// By which collations DISTINCT compares results.
fn collations_of_results(alloc: Global, columns: &[ResultColumn]) -> Result<Items<Collation>, Cause>
    ensures ok { IfOk result (λ cs. cs ≡ map collation_of_result columns.now) }
    ensures mem { OnlyMem result }
{
    let mut all = Items::new(alloc);
    for column in columns {
        pushed(&mut all, collation_of_result(column))?;
    }
    Ok(all)
}

/// A SELECT with its aggregates, of which the next one sees none, and the columns that it gives. Only memory can fail.
pub fn core_given(
    alloc: Global,
    select: BoundSelect,
    work: &mut Work,
) -> Result<(BoundCore, Items<ResultColumn>), Cause>
    ensures { Becomes ((core_of select work.old, select.shown.columns), without_aggregates work.old) result work.new }
{
    let BoundSelect {
        found,
        conjuncts,
        grouped,
        keys,
        having,
        shown,
        distinct,
    } = select;
    let Found {
        level: _,
        items,
        has_queue: _,
    } = found;
    let Shown { trees, columns } = shown;
    let collations = collations_of_results(alloc, columns.as_slice())?;
    let aggregates = mem::replace(&mut work.aggregates, Items::new(alloc));
    let core = BoundCore {
        items,
        conjuncts,
        groups: groups_of(grouped, keys, aggregates, having),
        results: trees,
        collations,
        distinct,
    };
    Ok((core, columns))
}

/// A SELECT as a part of a query. Only memory can fail.
pub fn select_given(alloc: Global, select: BoundSelect, work: &mut Work) -> Result<Given, Cause>
    ensures { Becomes (select_given select work.old) result work.new }
{
    let (core, columns) = core_given(alloc, select, work)?;
    Ok(Given {
        part: BoundPart::Select(core),
        columns,
    })
}

/// A query of one part.
pub fn gathered_alone(alloc: Global, given: Given, order: Items<BoundTerm>) -> Gathered
    ensures { result ≡ gathered_alone given order }
{
    Gathered {
        first: given.part,
        others: Items::new(alloc),
        order,
        columns: given.columns,
    }
}
