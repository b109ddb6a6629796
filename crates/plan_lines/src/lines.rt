// The lines of a plan.
ghost use Rattle.std.specs.Prelude.{◌≡◌, [], ◌∷◌, ◌++◌, map, IfOk};
ghost use Rattle.plan_lines.specs.Lines.{detail, details, line, lines_of, numbered, scan_detail, search_detail, sort_details};

use crate::ItemLabel;
use crate::conditions::{conditions, write_joined};
use crate::fitting::write_used;
use crate::naming::{columns_at, indexes_at, write_both, write_item};
use eng_value::{Row, Rows, Text, Value};
use plan_tree::{JoinPlan, Loop, Path, Search};
use sqlite_items::Items;
use std::alloc::{AllocError, Global};

/// The rows of EXPLAIN QUERY PLAN for a plan, where the items of its FROM have these labels, in the FROM's order. What has no label is shown
/// by its number. Only memory can fail.
pub fn plan_lines(alloc: Global, plan: &JoinPlan, items: &[ItemLabel]) -> Result<Rows, AllocError>
    ensures { IfOk result (λ rows. rows ≡ lines_of plan.now items.now) }
{
    let details = details(alloc, plan, items)?;
    numbered(alloc, details.as_slice())
}

/// What each line says.
fn details(alloc: Global, plan: &JoinPlan, items: &[ItemLabel]) -> Result<Items<Text>, AllocError>
    ensures { IfOk result (λ found. found ≡ details plan.now items.now) }
{
    if plan.loops.is_empty() {
        return one(alloc, "SCAN CONSTANT ROW");
    }
    let found = each_detail(alloc, plan.loops.as_slice(), items)?;
    with_sort(alloc, found, plan.sort)
}

/// With the line of a sort behind the others, where there is one.
fn with_sort(alloc: Global, mut found: Items<Text>, sort: bool) -> Result<Items<Text>, AllocError>
    ensures { IfOk result (λ all. all ≡ found ++ sort_details sort) }
{
    if sort {
        found.append(one(alloc, "USE TEMP B-TREE FOR POSITION")?)?;
        return Ok(found);
    }
    Ok(found)
}

/// A single line.
fn one(alloc: Global, text: &str) -> Result<Items<Text>, AllocError>
    ensures { IfOk result (λ found. found ≡ text.now ∷ []) }
{
    let mut found = Items::new(alloc);
    found.push(Text::from_str(alloc, text)?)?;
    Ok(found)
}

/// What the lines of loops say.
fn each_detail(
    alloc: Global,
    loops: &[Loop],
    items: &[ItemLabel],
) -> Result<Items<Text>, AllocError>
    ensures { IfOk result (λ found. found ≡ map (detail items.now) loops.now) }
{
    let mut found = Items::new(alloc);
    for each in loops {
        found.push(detail(alloc, each, items)?)?;
    }
    Ok(found)
}

fn detail(alloc: Global, each: &Loop, items: &[ItemLabel]) -> Result<Text, AllocError>
    ensures { IfOk result (λ text. text ≡ detail items.now each.now) }
{
    match &each.path {
        Path::Scan => scan_detail(alloc, items, each.place),
        Path::Search(search) => search_detail(alloc, items, each.place, search),
    }
}

fn scan_detail(alloc: Global, items: &[ItemLabel], place: u32) -> Result<Text, AllocError>
    ensures { IfOk result (λ text. text ≡ scan_detail items.now place) }
{
    let mut text = String::from_str(alloc, "SCAN ")?;
    write_item(&mut text, items, place)?;
    Ok(Text::new(text))
}

fn search_detail(
    alloc: Global,
    items: &[ItemLabel],
    place: u32,
    search: &Search,
) -> Result<Text, AllocError>
    ensures { IfOk result (λ text. text ≡ search_detail items.now place search.now) }
{
    let found = conditions(alloc, columns_at(items, place), search)?;
    let mut text = String::from_str(alloc, "SEARCH ")?;
    write_item(&mut text, items, place)?;
    text.push_str(" USING ")?;
    write_used(&mut text, indexes_at(items, place), search.terms.as_slice())?;
    text.push_str(" (")?;
    write_joined(&mut text, found.as_slice())?;
    text.push_str(")")?;
    Ok(Text::new(text))
}

/// The rows of lines that say this, with ids from 1 on.
fn numbered(alloc: Global, details: &[Text]) -> Result<Rows, AllocError>
    ensures { IfOk result (λ rows. rows ≡ numbered 1 details.now) }
{
    let mut rows = Rows::empty(alloc);
    let mut id = 1;
    for text in details {
        rows.push(line(alloc, id, text)?)?;
        id += 1;
    }
    Ok(rows)
}

/// The row of a line.
fn line(alloc: Global, id: i64, detail: &Text) -> Result<Row, AllocError>
    ensures { IfOk result (λ row. row ≡ line id detail.now) }
{
    let mut row = Row::empty(alloc);
    row.push(Value::Integer(id))?;
    row.push(Value::Integer(0))?;
    row.push(Value::Integer(0))?;
    row.push(Value::Text(detail.clone()?))?;
    Ok(row)
}
