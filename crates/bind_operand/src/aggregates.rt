// Calls of aggregates (Built-in Aggregate Functions).
ghost use Rattle.std.specs.Prelude.{◌≡◌, ◌++◌, IfOk};
ghost use Rattle.bound_tree.specs.Exprs as e;
ghost use Rattle.sql_bound.specs.Answers.{OnlyMem};
ghost use Rattle.sql_bound.specs.Expressions.{aggregate_of, option_tree};
ghost use Rattle.sql_bound.specs.Operands.{option_list, over};
ghost use Rattle.sql_bound.specs.Callees.{is_distinct};
ghost use Rattle.bind_operand.specs.Kinds.{of_kind};

use crate::collations::{collation_of_arguments, explicit_of_option, first_explicit, or_else};
use crate::leaves::bare;
use crate::lists::trees_of;
use bound_tree::{AggregateKind, BoundAggregate, BoundExpr};
use eng_value::Cause;
use sql_bound::Operand;
use sql_tree::Arguments;
use sqlite_items::Items;
use std::alloc::Global;

/// Whether DISTINCT stands in front of the arguments.
fn is_distinct(how: Arguments) -> bool
    ensures { result ≡ is_distinct how }
{
    match how {
        Arguments::Distinct => true,
        _ => false,
    }
}

/// The tree of an operand that may be absent.
fn option_tree(a: Option<Operand>) -> Option<BoundExpr>
    ensures { result ≡ option_tree a }
{
    match a {
        Some(a) => Some(a.tree),
        None => None,
    }
}

/// An aggregate of this kind over its arguments, with its FILTER, if any. Only memory can fail.
pub fn aggregate_of(
    alloc: Global,
    kind: AggregateKind,
    how: Arguments,
    arguments: Items<Operand>,
    filter: Option<Operand>,
) -> Result<BoundAggregate, Cause>
    ensures ok { IfOk result (λ made. made ≡ aggregate_of (of_kind kind) how arguments filter) }
    ensures mem { OnlyMem result }
{
    let collation = collation_of_arguments(arguments.as_slice());
    let arguments = trees_of(alloc, arguments)?;
    Ok(BoundAggregate {
        kind,
        distinct: is_distinct(how),
        collation,
        arguments,
        filter: option_tree(filter),
    })
}

/// What an aggregate over these comes to, by its slot.
#[tactic(auto, using(crate::proofs::Explicits::first_explicit_appends))]
pub fn slot_operand(arguments: &[Operand], filter: &Option<Operand>, slot: u32) -> Operand
    ensures { result ≡ over (arguments.now ++ option_list filter.now) (e.Aggregate slot) }
{
    let explicit = or_else(first_explicit(arguments), explicit_of_option(filter));
    bare(explicit, BoundExpr::aggregate(slot))
}
