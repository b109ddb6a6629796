// Calls of functions (Built-in Scalar SQL Functions).
ghost use Rattle.std.specs.Prelude.{◌≡◌, IfOk};
ghost use Rattle.eng_value.specs.Functions.{Choice, kind_of};
ghost use Rattle.eng_value.specs.declared.builtin.Builtin.TheVariants as builtin;
ghost use Rattle.bound_tree.specs.Exprs as e;
ghost use Rattle.sql_bound.specs.Answers.{OnlyMem};
ghost use Rattle.sql_bound.specs.Operands.{call_by, call_of, host_call_of};

use crate::collations::{collation_of_arguments, first_explicit};
use crate::leaves::bare;
use crate::lists::trees_of;
use bound_tree::BoundExpr;
use eng_value::{Builtin, Cause, Collation, Text};
use sql_bound::Operand;
use sqlite_items::Items;
use std::alloc::Global;

/// `iif(a, b, c)`
fn iif(
    alloc: Global,
    collation: Collation,
    mut arguments: Items<BoundExpr>,
) -> Result<BoundExpr, Cause>
    ensures ok { IfOk result (λ x. x ≡ call_by Choice builtin.Iif collation arguments) }
    ensures mem { OnlyMem result }
{
    if arguments.len() != 3 {
        return call(alloc, Builtin::Iif, collation, arguments);
    }
    match (arguments.pop(), arguments.pop(), arguments.pop()) {
        (Some(c), Some(b), Some(a)) => Ok(BoundExpr::iif(alloc, a, b, c)?),
        _ => unreachable!(),
    }
}

/// A call of a function over all its arguments.
fn call(
    alloc: Global,
    f: Builtin,
    collation: Collation,
    arguments: Items<BoundExpr>,
) -> Result<BoundExpr, Cause>
    ensures ok { IfOk result (λ x. x ≡ e.Call f collation arguments) }
    ensures mem { OnlyMem result }
{
    Ok(BoundExpr::call(alloc, f, collation, arguments)?)
}

/// coalesce or ifnull.
fn coalesce(alloc: Global, f: Builtin, arguments: Items<BoundExpr>) -> Result<BoundExpr, Cause>
    ensures ok { IfOk result (λ x. x ≡ e.Coalesce f arguments) }
    ensures mem { OnlyMem result }
{
    Ok(BoundExpr::coalesce(alloc, f, arguments)?)
}

/// The tree of a call. coalesce, ifnull and iif look at their arguments in order.
#[tactic(auto, unfolding(eng_value::specs::Functions::kind_of))]
fn call_tree(
    alloc: Global,
    f: Builtin,
    collation: Collation,
    arguments: Items<BoundExpr>,
) -> Result<BoundExpr, Cause>
    ensures ok { IfOk result (λ x. x ≡ call_by (kind_of f) f collation arguments) }
    ensures mem { OnlyMem result }
{
    match f {
        Builtin::Coalesce => coalesce(alloc, f, arguments),
        Builtin::IfNull => coalesce(alloc, f, arguments),
        Builtin::Iif => iif(alloc, collation, arguments),
        _ => call(alloc, f, collation, arguments),
    }
}

/// A call of a built-in function. Only memory can fail.
pub fn call_of(alloc: Global, f: Builtin, arguments: Items<Operand>) -> Result<Operand, Cause>
    ensures ok { IfOk result (λ x. x ≡ call_of f arguments) }
    ensures mem { OnlyMem result }
{
    let explicit = first_explicit(arguments.as_slice());
    let collation = collation_of_arguments(arguments.as_slice());
    let arguments = trees_of(alloc, arguments)?;
    let tree = call_tree(alloc, f, collation, arguments)?;
    Ok(bare(explicit, tree))
}

/// A call of a host's function. Only memory can fail.
pub fn host_call_of(alloc: Global, name: Text, arguments: Items<Operand>) -> Result<Operand, Cause>
    ensures ok { IfOk result (λ x. x ≡ host_call_of name arguments) }
    ensures mem { OnlyMem result }
{
    let explicit = first_explicit(arguments.as_slice());
    let arguments = trees_of(alloc, arguments)?;
    let tree = BoundExpr::host_call(alloc, name, arguments)?;
    Ok(bare(explicit, tree))
}
