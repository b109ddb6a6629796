// What queries do, and units in turn.
ghost use Rattle.std.specs.Prelude.{◌≡◌, ◌++◌, [], ◌∷◌, IfOk, OnOk, map};
ghost use Rattle.std.specs.List.{flat_map};
ghost use Rattle.bound_tree.specs.declared.units.BoundKey.{BoundKey};
ghost use Rattle.bound_actions.specs.Expressions.{pieces_of};
ghost use Rattle.bound_actions.specs.Froms.{all_pieces};
ghost use Rattle.bound_actions.specs.Pieces.{asked};
ghost use Rattle.bound_actions.specs.Queries.{aggregate_pieces, body_pieces, core_pieces, core_spot, groups_pieces, optional_pieces, others_pieces, own_body, own_core, own_part, part_pieces, part_spot, query_pieces, recursion_pieces, slots_of, tables_pieces, term_pieces, terms_pieces, unit_pieces, units_pieces, with_slots};

use crate::exprs::{put_action, put_all, put_call, put_expr};
use crate::froms::{all_readable, over, put_items};
use crate::pieces::{put_asked, put_settled};
use crate::words::aggregate_word;
use crate::{Piece, Spot};
use bound_tree::{
    BoundAggregate, BoundCompound, BoundCore, BoundExpr, BoundGroups, BoundKey, BoundPart,
    BoundQuery, BoundRecursion, BoundTerm, BoundUnit, TermKey,
};
use eng_value::{ActionKind, Text};
use sqlite_items::Items;
use std::alloc::{AllocError, Global};

pub(crate) fn put_optional(
    alloc: Global,
    units: &[Items<Piece>],
    spot: &Spot,
    e: &Option<BoundExpr>,
    out: &mut Items<Piece>,
) -> Result<(), AllocError>
    ensures { OnOk result (out.new ≡ out.old ++ optional_pieces units.now spot.now e.now) }
{
    match e {
        Some(e) => put_expr(alloc, units, spot, e, out),
        None => Ok(()),
    }
}

// ---- a SELECT

fn aggregate_list(
    alloc: Global,
    units: &[Items<Piece>],
    spot: &Spot,
    aggregate: &BoundAggregate,
) -> Result<Items<Piece>, AllocError>
    ensures { IfOk result (λ list. list ≡ aggregate_pieces units.now spot.now aggregate.now) }
{
    let mut list = Items::new(alloc);
    put_call(alloc, spot, aggregate_word(&aggregate.kind), &mut list)?;
    put_all(
        alloc,
        units,
        spot,
        aggregate.arguments.as_slice(),
        &mut list,
    )?;
    put_optional(alloc, units, spot, &aggregate.filter, &mut list)?;
    Ok(list)
}

fn aggregate_lists(
    alloc: Global,
    units: &[Items<Piece>],
    spot: &Spot,
    aggregates: &[BoundAggregate],
) -> Result<Items<Items<Piece>>, AllocError>
    ensures { IfOk result (λ lists. lists ≡ map (aggregate_pieces units.now spot.now) aggregates.now) }
{
    let mut lists = Items::new(alloc);
    for aggregate in aggregates {
        lists.push(aggregate_list(alloc, units, spot, aggregate)?)?;
    }
    Ok(lists)
}

fn slots_of(
    alloc: Global,
    units: &[Items<Piece>],
    spot: &Spot,
    groups: &Option<BoundGroups>,
) -> Result<Items<Items<Piece>>, AllocError>
    ensures { IfOk result (λ lists. lists ≡ slots_of units.now spot.now groups.now) }
{
    match groups {
        Some(groups) => aggregate_lists(alloc, units, spot, groups.aggregates.as_slice()),
        None => Ok(Items::new(alloc)),
    }
}

/// Where the expressions of a SELECT stand, with what its aggregates do.
fn with_slots(
    alloc: Global,
    units: &[Items<Piece>],
    groups: &Option<BoundGroups>,
    spot: Spot,
) -> Result<Spot, AllocError>
    ensures { IfOk result (λ made. made ≡ with_slots units.now groups.now spot) }
{
    let slots = slots_of(alloc, units, &spot, groups)?;
    let Spot {
        within,
        items,
        slots: _,
    } = spot;
    Ok(Spot {
        within,
        items,
        slots,
    })
}

fn core_spot(
    alloc: Global,
    units: &[Items<Piece>],
    within: &Option<Text>,
    core: &BoundCore,
) -> Result<Spot, AllocError>
    ensures { IfOk result (λ made. made ≡ core_spot units.now within.now core.now) }
{
    let items = all_readable(alloc, core.items.as_slice())?;
    let plain = over(alloc, within, items)?;
    with_slots(alloc, units, &core.groups, plain)
}

fn put_keys(
    alloc: Global,
    units: &[Items<Piece>],
    spot: &Spot,
    keys: &[BoundKey],
    out: &mut Items<Piece>,
) -> Result<(), AllocError>
    ensures { OnOk result (out.new ≡ out.old ++ flat_map (λ (k : BoundKey). pieces_of units.now spot.now k.expr) keys.now) }
{
    for key in keys {
        put_expr(alloc, units, spot, &key.expr, out)?;
    }
    Ok(())
}

fn put_groups(
    alloc: Global,
    units: &[Items<Piece>],
    spot: &Spot,
    groups: &Option<BoundGroups>,
    out: &mut Items<Piece>,
) -> Result<(), AllocError>
    ensures { OnOk result (out.new ≡ out.old ++ groups_pieces units.now spot.now groups.now) }
{
    match groups {
        Some(groups) => {
            put_keys(alloc, units, spot, groups.keys.as_slice(), out)?;
            put_all(alloc, units, spot, groups.having.as_slice(), out)
        }
        None => Ok(()),
    }
}

fn put_core(
    alloc: Global,
    units: &[Items<Piece>],
    spot: &Spot,
    core: &BoundCore,
    out: &mut Items<Piece>,
) -> Result<(), AllocError>
    ensures { OnOk result (out.new ≡ out.old ++ core_pieces units.now spot.now core.now) }
{
    put_action(alloc, spot, ActionKind::Select, "", "", out)?;
    put_all(alloc, units, spot, core.results.as_slice(), out)?;
    put_items(alloc, units, spot, core.items.as_slice(), out)?;
    put_all(alloc, units, spot, core.conjuncts.as_slice(), out)?;
    put_groups(alloc, units, spot, &core.groups, out)
}

// ---- parts

fn part_spot(
    alloc: Global,
    units: &[Items<Piece>],
    within: &Option<Text>,
    part: &BoundPart,
) -> Result<Spot, AllocError>
    ensures { IfOk result (λ made. made ≡ part_spot units.now within.now part.now) }
{
    match part {
        BoundPart::Select(core) => core_spot(alloc, units, within, core),
        BoundPart::Values(_) => over(alloc, within, Items::new(alloc)),
    }
}

fn put_rows(
    alloc: Global,
    units: &[Items<Piece>],
    spot: &Spot,
    rows: &[Items<BoundExpr>],
    out: &mut Items<Piece>,
) -> Result<(), AllocError>
    ensures { OnOk result (out.new ≡ out.old ++ flat_map (all_pieces units.now spot.now) rows.now) }
{
    for row in rows {
        put_all(alloc, units, spot, row.as_slice(), out)?;
    }
    Ok(())
}

fn put_part(
    alloc: Global,
    units: &[Items<Piece>],
    spot: &Spot,
    part: &BoundPart,
    out: &mut Items<Piece>,
) -> Result<(), AllocError>
    ensures { OnOk result (out.new ≡ out.old ++ part_pieces units.now spot.now part.now) }
{
    match part {
        BoundPart::Select(core) => put_core(alloc, units, spot, core, out),
        BoundPart::Values(rows) => put_rows(alloc, units, spot, rows.as_slice(), out),
    }
}

fn put_own_part(
    alloc: Global,
    units: &[Items<Piece>],
    within: &Option<Text>,
    part: &BoundPart,
    out: &mut Items<Piece>,
) -> Result<(), AllocError>
    ensures { OnOk result (out.new ≡ out.old ++ own_part units.now within.now part.now) }
{
    let spot = part_spot(alloc, units, within, part)?;
    let mut own = Items::new(alloc);
    put_part(alloc, units, &spot, part, &mut own)?;
    put_settled(own.as_slice(), out)
}

fn put_others(
    alloc: Global,
    units: &[Items<Piece>],
    within: &Option<Text>,
    others: &[BoundCompound],
    out: &mut Items<Piece>,
) -> Result<(), AllocError>
    ensures { OnOk result (out.new ≡ out.old ++ others_pieces units.now within.now others.now) }
{
    for other in others {
        put_own_part(alloc, units, within, &other.part, out)?;
    }
    Ok(())
}

// ---- whole queries

fn put_table(
    alloc: Global,
    units: &[Items<Piece>],
    table: u32,
    out: &mut Items<Piece>,
) -> Result<(), AllocError>
    ensures { OnOk result (out.new ≡ out.old ++ asked units.now table []) }
{
    let handed = Items::new(alloc);
    put_asked(units, table, handed.as_slice(), out)
}

fn put_tables(
    alloc: Global,
    units: &[Items<Piece>],
    tables: &[u32],
    out: &mut Items<Piece>,
) -> Result<(), AllocError>
    ensures { OnOk result (out.new ≡ out.old ++ tables_pieces units.now tables.now) }
{
    for table in tables {
        put_table(alloc, units, *table, out)?;
    }
    Ok(())
}

fn put_term(
    alloc: Global,
    units: &[Items<Piece>],
    spot: &Spot,
    key: &TermKey,
    out: &mut Items<Piece>,
) -> Result<(), AllocError>
    ensures { OnOk result (out.new ≡ out.old ++ term_pieces units.now spot.now key.now) }
{
    match key {
        TermKey::Result(_) => Ok(()),
        TermKey::Expression(e) => put_expr(alloc, units, spot, e, out),
    }
}

fn put_terms(
    alloc: Global,
    units: &[Items<Piece>],
    spot: &Spot,
    terms: &[BoundTerm],
    out: &mut Items<Piece>,
) -> Result<(), AllocError>
    ensures { OnOk result (out.new ≡ out.old ++ terms_pieces units.now spot.now terms.now) }
{
    for term in terms {
        put_term(alloc, units, spot, &term.key, out)?;
    }
    Ok(())
}

fn put_body(
    alloc: Global,
    units: &[Items<Piece>],
    spot: &Spot,
    query: &BoundQuery,
    out: &mut Items<Piece>,
) -> Result<(), AllocError>
    ensures { OnOk result (out.new ≡ out.old ++ body_pieces units.now spot.now query.now) }
{
    put_part(alloc, units, spot, &query.first, out)?;
    put_others(alloc, units, &query.within, query.others.as_slice(), out)?;
    put_terms(alloc, units, spot, query.order.as_slice(), out)?;
    put_optional(alloc, units, spot, &query.limit, out)?;
    put_optional(alloc, units, spot, &query.offset, out)
}

fn put_own_body(
    alloc: Global,
    units: &[Items<Piece>],
    query: &BoundQuery,
    out: &mut Items<Piece>,
) -> Result<(), AllocError>
    ensures { OnOk result (out.new ≡ out.old ++ own_body units.now query.now) }
{
    let spot = part_spot(alloc, units, &query.within, &query.first)?;
    let mut own = Items::new(alloc);
    put_body(alloc, units, &spot, query, &mut own)?;
    put_settled(own.as_slice(), out)
}

fn put_query(
    alloc: Global,
    units: &[Items<Piece>],
    query: &BoundQuery,
    out: &mut Items<Piece>,
) -> Result<(), AllocError>
    ensures { OnOk result (out.new ≡ out.old ++ query_pieces units.now query.now) }
{
    put_tables(alloc, units, query.tables.as_slice(), out)?;
    put_own_body(alloc, units, query, out)
}

fn put_own_core(
    alloc: Global,
    units: &[Items<Piece>],
    within: &Option<Text>,
    core: &BoundCore,
    out: &mut Items<Piece>,
) -> Result<(), AllocError>
    ensures { OnOk result (out.new ≡ out.old ++ own_core units.now within.now core.now) }
{
    let spot = core_spot(alloc, units, within, core)?;
    let mut own = Items::new(alloc);
    put_core(alloc, units, &spot, core, &mut own)?;
    put_settled(own.as_slice(), out)
}

fn put_recursion(
    alloc: Global,
    units: &[Items<Piece>],
    recursion: &BoundRecursion,
    out: &mut Items<Piece>,
) -> Result<(), AllocError>
    ensures { OnOk result (out.new ≡ out.old ++ recursion_pieces units.now recursion.now) }
{
    put_tables(alloc, units, recursion.tables.as_slice(), out)?;
    put_own_part(alloc, units, &recursion.within, &recursion.first, out)?;
    put_others(
        alloc,
        units,
        &recursion.within,
        recursion.others.as_slice(),
        out,
    )?;
    put_own_core(alloc, units, &recursion.within, &recursion.part, out)?;
    let beside = over(alloc, &recursion.within, Items::new(alloc))?;
    put_optional(alloc, units, &beside, &recursion.limit, out)?;
    put_optional(alloc, units, &beside, &recursion.offset, out)
}

// ---- units in turn

fn unit_list(
    alloc: Global,
    units: &[Items<Piece>],
    unit: &BoundUnit,
) -> Result<Items<Piece>, AllocError>
    ensures { IfOk result (λ list. list ≡ unit_pieces units.now unit.now) }
{
    let mut list = Items::new(alloc);
    match unit {
        BoundUnit::Queried(query) => {
            put_query(alloc, units, query, &mut list)?;
            Ok(list)
        }
        BoundUnit::Recursed(recursion) => {
            put_recursion(alloc, units, recursion, &mut list)?;
            Ok(list)
        }
    }
}

/// What each unit of a statement does.
pub(crate) fn unit_lists(
    alloc: Global,
    units: &[BoundUnit],
) -> Result<Items<Items<Piece>>, AllocError>
    ensures { IfOk result (λ lists. lists ≡ units_pieces units.now) }
{
    let mut front = Items::new(alloc);
    for unit in units {
        let list = unit_list(alloc, front.as_slice(), unit)?;
        front.push(list)?;
    }
    Ok(front)
}
