// The way by which a query reads its tables.
ghost use Rattle.std.specs.Prelude.{IfOk};
ghost use Rattle.gen_query.specs.Queries.{NamesItsItems, conjuncts_of, query_run, query_steps};
ghost use Rattle.plan_tree.specs.Plans.{PlanFits};
ghost use Rattle.vm_code.specs.Accepted.{IsAccepted};
ghost use Rattle.vm_code.specs.Machine.{PerformsWith};

use eng_index::{KeyTerm, Range};
use eng_value::Value;
use plan_best::Counts;
use plan_join::{order, order_as};
use plan_tree::{Conjunct, JoinPlan, split};
use sql_meaning::{BoundSelect, FromTable};
use sqlite_items::Items;
use std::alloc::{AllocError, Global};
use vm_code::Program;
use vm_tables::Tables;

/// In which order the loops of a join are wanted. No answer depends on it, but how long it takes may.
#[derive(Clone, Copy)]
pub enum JoinOrder {
    /// The one that seems to take least.
    Cheapest,
    /// As near as may be to the one of this number: 0 is the order of the text, and each order of n items has a number below n!.
    Numbered(u64),
}

/// How many rows of an item's table a search finds, as far as an index of them stands; and how many it has, by no terms.
#[derive(Clone, Copy)]
struct RowCounts<'a> {
    alloc: Global,
    tables: &'a Tables,
    from: &'a [FromTable],
}

impl Counts for RowCounts<'_> {
    fn found(&self, item: u32, terms: &[KeyTerm], range: &Range) -> Option<usize> {
        let table = self.from.get(item as usize)?.table;
        if terms.is_empty() {
            return Some(self.tables.row_count(table));
        }
        self.tables.count(self.alloc, table, terms, range)
    }
}

/// The plan of a query with these parameters that is best as its tables stand, where no other order is wanted.
pub(crate) fn query_plan<'a>(
    alloc: Global,
    query: &'a BoundSelect,
    params: &[Value],
    tables: &Tables,
    wanted: JoinOrder,
) -> Result<JoinPlan<'a>, AllocError>
    ensures { IfOk result (λ p. PlanFits params.now query.now.from (conjuncts_of query.now) p) }
{
    let conjuncts = split(alloc, query.conjuncts.as_slice())?;
    let from = query.from.as_slice();
    let counts = RowCounts {
        alloc,
        tables,
        from,
    };
    planned(alloc, from, conjuncts.as_slice(), params, &counts, wanted)
}

/// The program of a query with these parameters: it reads its tables by the plan that is best as they stand.
pub(crate) fn compiled_query(
    alloc: Global,
    query: &BoundSelect,
    params: &[Value],
    tables: &Tables,
    wanted: JoinOrder,
) -> Result<Program, AllocError>
    ensures performs { IfOk result (λ p. PerformsWith params.now p (query_run query.now) (query_steps query.now)) }
    ensures accepted { IfOk result (λ p. NamesItsItems query.now → IsAccepted p) }
{
    let plan = query_plan(alloc, query, params, tables, wanted)?;
    gen_query::compile(alloc, query, &plan)
}

/// The loops over the items of a FROM in the order that is wanted.
fn planned<'a>(
    alloc: Global,
    from: &'a [FromTable],
    conjuncts: &[Conjunct<'a>],
    params: &[Value],
    counts: &RowCounts,
    wanted: JoinOrder,
) -> Result<JoinPlan<'a>, AllocError>
    ensures fits { IfOk result (λ p. PlanFits params.now from.now conjuncts.now p) }
{
    match wanted {
        JoinOrder::Cheapest => order(alloc, from, conjuncts, params, counts),
        JoinOrder::Numbered(number) => {
            let places = places_by(alloc, from.len(), number)?;
            order_as(alloc, from, conjuncts, params, counts, places.as_slice())
        }
    }
}

/// The places of so many items in the order of a number.
fn places_by(alloc: Global, items: usize, number: u64) -> Result<Items<u32>, AllocError> {
    let mut left = Vec::new(alloc);
    for place in 0..items {
        if let Ok(place) = u32::try_from(place) {
            left.push(place)?;
        }
    }
    let mut places = Items::new(alloc);
    let mut code = number;
    for _ in 0..items {
        let count = left.len() as u64;
        if let Some(place) = taken(&mut left, code) {
            places.push(place)?;
        }
        code = code.checked_div(count).unwrap_or(0);
    }
    Ok(places)
}

/// One of those that are left, by a number.
fn taken(left: &mut Vec<u32>, number: u64) -> Option<u32> {
    let at = number.checked_rem(left.len() as u64)? as usize;
    if at < left.len() {
        Some(left.remove(at))
    } else {
        None
    }
}
