// What a query needs of the FROMs further out, and how it is handed over.
ghost use Rattle.std.specs.Prelude.{◌≡◌, map, position, IfOk};
ghost use Rattle.sql_bound.specs.Answers.{Becomes, OnlyMem};
ghost use Rattle.sql_bound.specs.Columns.{seen};
ghost use Rattle.sql_bound.specs.Operands.{column_operand};
ghost use Rattle.sql_bound.specs.Scopes.{argument_at, brought, further, handed, is_need, needed};
ghost use Rattle.bound_tree.specs.Exprs as e;

use crate::copies::copied_tree;
use crate::places::{pushed, small};
use bound_tree::{BoundExpr, same_expr};
use eng_value::Cause;
use sql_bound::{Form, Need, Operand, ScopeColumn, Sight, Work};
use sqlite_items::Items;
use std::alloc::Global;

fn is_need(a: &Need, b: &Need) -> bool
    ensures { result ≡ is_need a.now b.now }
{
    a.up == b.up && same_expr(&a.tree, &b.tree)
}

fn need_place(needs: &[Need], need: &Need) -> Option<usize>
    ensures { result ≡ position (is_need need.now) needs.now }
{
    needs.iter().position(|n| is_need(need, n))
}

/// The argument that brings what is needed: one that brings it already, or a new one.
pub fn needed(need: Need, work: &mut Work) -> Result<BoundExpr, Cause>
    ensures { Becomes (needed need work.old) result work.new }
{
    match need_place(work.needs.as_slice(), &need) {
        Some(place) => Ok(BoundExpr::argument(small(place)?)),
        None => {
            let place = small(work.needs.len())?;
            pushed(&mut work.needs, need)?;
            Ok(BoundExpr::argument(place))
        }
    }
}

/// What is so many FROMs further out, as an expression over the own one: itself, or an argument.
pub fn brought(up: u32, tree: BoundExpr, work: &mut Work) -> Result<BoundExpr, Cause>
    ensures { Becomes (brought up tree work.old) result work.new }
{
    match up.checked_sub(1) {
        None => Ok(tree),
        Some(up) => needed(Need { up, tree }, work),
    }
}

/// What is handed over to a query that needs this.
pub fn handed(alloc: Global, needs: &[Need], work: &mut Work) -> Result<Items<BoundExpr>, Cause>
    ensures { Becomes (handed needs.now work.old) result work.new }
{
    let mut found = Items::new(alloc);
    for need in needs {
        let tree = copied_tree(alloc, &need.tree)?;
        let one = brought(need.up, tree, work)?;
        pushed(&mut found, one)?;
    }
    Ok(found)
}

fn further_one(alloc: Global, distance: u32, need: &Need) -> Result<Need, Cause>
    ensures ok { IfOk result (λ n. n ≡ further distance need.now) }
    ensures mem { OnlyMem result }
{
    let tree = copied_tree(alloc, &need.tree)?;
    match need.up.checked_add(distance) {
        Some(up) => Ok(Need { up, tree }),
        None => Err(Cause::Mem),
    }
}

/// The same needs, seen from a place with so many more FROMs around it.
pub fn further(alloc: Global, distance: u32, needs: &[Need]) -> Result<Items<Need>, Cause>
    ensures ok { IfOk result (λ all. all ≡ map (further distance) needs.now) }
    ensures mem { OnlyMem result }
{
    let mut all = Items::new(alloc);
    for need in needs {
        let one = further_one(alloc, distance, need)?;
        pushed(&mut all, one)?;
    }
    Ok(all)
}

/// A column that was found, as an operand where its name stands.
pub fn seen(sight: Sight, work: &mut Work) -> Result<Operand, Cause>
    ensures { Becomes (seen sight work.old) result work.new }
{
    let Sight { up, column } = sight;
    let ScopeColumn {
        name,
        affinity,
        collation,
        tree,
        joined: _,
        hidden: _,
    } = column;
    let tree = brought(up, tree, work)?;
    Ok(Operand {
        tree,
        affinity,
        explicit: None,
        column: Some(collation),
        form: Form::Plain,
        name: Some(name),
    })
}
