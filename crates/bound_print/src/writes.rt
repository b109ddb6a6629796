// Writes and triggers.
use crate::Page;
use crate::exprs::{
    print_all, print_each, print_expr, print_optional, write_expr, write_unit_call,
};
use crate::items::{print_columns, print_item};
use bound_tree::{
    BoundChange, BoundExpr, BoundReturning, BoundSet, BoundStep, BoundTarget, BoundTrigger,
    BoundUpsert, BoundWrite, ConflictTest, FiringEvent,
};
use sql_tree::{ConflictChoice, TriggerTime};

fn change_word(change: &BoundChange) -> &'static str {
    match change {
        BoundChange::Inserted(_, _, _, _) => "insert",
        BoundChange::Defaulted => "insert",
        BoundChange::Updated(_, _) => "update",
        BoundChange::Deleted(_) => "delete",
    }
}

fn choice_word(choice: ConflictChoice) -> &'static str {
    match choice {
        ConflictChoice::Abort => "",
        ConflictChoice::Ignore => " or ignore",
        ConflictChoice::Replace => " or replace",
    }
}

/// Prints a write.
pub(crate) fn print_write(page: &mut Page, write: &BoundWrite) {
    page.begin(change_word(&write.change));
    page.write(choice_word(write.choice));
    page.write(if write.counts { "" } else { " uncounted" });
    page.end();
    page.indent();
    print_target(page, &write.target);
    print_all(page, "captures ", write.captures.as_slice());
    print_change(page, &write.change);
    print_places(page, "fires ", write.fires.as_slice());
    if let Some(upsert) = &write.upsert {
        print_upsert(page, upsert);
    }
    if let Some(returning) = &write.returning {
        print_returning(page, returning);
    }
    page.outdent();
}

fn print_target(page: &mut Page, target: &BoundTarget) {
    print_item(page, "target ", &target.item);
    print_defaults(page, target.defaults.as_slice());
    print_not_nulls(page, target.not_nulls.as_slice());
    print_each(page, "check ", target.checks.as_slice());
}

fn print_defaults(page: &mut Page, defaults: &[Option<BoundExpr>]) {
    for (column, default) in defaults.iter().enumerate() {
        if let Some(e) = default {
            page.begin("default ");
            page.write_number(column as u64);
            page.write(" = ");
            write_expr(page, e);
            page.end();
        }
    }
}

fn print_not_nulls(page: &mut Page, not_nulls: &[bool]) {
    if !not_nulls.iter().any(|not_null| *not_null) {
        return;
    }
    page.begin("not null");
    let mut has_one = false;
    for (column, not_null) in not_nulls.iter().enumerate() {
        if *not_null {
            page.write(if has_one { ", " } else { " " });
            page.write_number(column as u64);
            has_one = true;
        }
    }
    page.end();
}

/// A line of places, where there are some.
fn print_places(page: &mut Page, word: &str, places: &[u32]) {
    if places.is_empty() {
        return;
    }
    page.begin(word);
    for (at, place) in places.iter().enumerate() {
        page.separate(at);
        page.write_place(*place);
    }
    page.end();
}

fn print_change(page: &mut Page, change: &BoundChange) {
    match change {
        BoundChange::Inserted(places, rowid, unit, handed) => {
            print_put(page, places.as_slice(), *rowid, *unit, handed.as_slice());
        }
        BoundChange::Defaulted => page.line("defaults"),
        BoundChange::Updated(sets, conjuncts) => {
            print_sets(page, sets.as_slice());
            print_each(page, "where ", conjuncts.as_slice());
        }
        BoundChange::Deleted(conjuncts) => print_each(page, "where ", conjuncts.as_slice()),
    }
}

/// Where an INSERT takes the values of the columns and of the rowid.
fn print_put(
    page: &mut Page,
    places: &[Option<u32>],
    rowid: Option<u32>,
    unit: u32,
    handed: &[BoundExpr],
) {
    page.begin("put ");
    for (at, place) in places.iter().enumerate() {
        page.separate(at);
        match place {
            Some(place) => page.write_place(*place),
            None => page.write("-"),
        }
    }
    if let Some(place) = rowid {
        page.write(" rowid ");
        page.write_place(place);
    }
    page.write(" from ");
    write_unit_call(page, unit, handed);
    page.end();
}

fn print_sets(page: &mut Page, sets: &[BoundSet]) {
    for set in sets {
        page.begin("set ");
        match set.column {
            Some(column) => page.write_place(column),
            None => page.write("rowid"),
        }
        page.write(" = ");
        write_expr(page, &set.value);
        page.end();
    }
}

fn print_upsert(page: &mut Page, upsert: &BoundUpsert) {
    page.begin("upsert ");
    match upsert.test {
        ConflictTest::OfAny => page.write("any"),
        ConflictTest::OfRowid => page.write("rowid"),
        ConflictTest::OfIndex(place) => {
            page.write("index ");
            page.write_place(place);
        }
    }
    page.end();
    page.indent();
    match &upsert.sets {
        Some(sets) => print_sets(page, sets.as_slice()),
        None => page.line("nothing"),
    }
    print_each(page, "where ", upsert.conjuncts.as_slice());
    page.outdent();
}

fn print_returning(page: &mut Page, returning: &BoundReturning) {
    print_all(page, "returning ", returning.results.as_slice());
    page.indent();
    print_columns(page, returning.columns.as_slice());
    page.outdent();
}

fn time_word(time: TriggerTime) -> &'static str {
    match time {
        TriggerTime::Before => " before",
        TriggerTime::After => " after",
        TriggerTime::InsteadOf => " instead of",
    }
}

fn event_word(event: FiringEvent) -> &'static str {
    match event {
        FiringEvent::AtDelete => " delete",
        FiringEvent::AtInsert => " insert",
        FiringEvent::AtUpdate => " update",
    }
}

/// Prints the triggers of a statement from number 0 on.
pub(crate) fn print_triggers(page: &mut Page, triggers: &[BoundTrigger]) {
    for (number, trigger) in triggers.iter().enumerate() {
        page.begin("trigger ");
        page.write_number(number as u64);
        page.write(" ");
        page.write(trigger.name.as_str());
        page.write(time_word(trigger.time));
        page.write(event_word(trigger.event));
        page.end();
        page.indent();
        print_trigger(page, trigger);
        page.outdent();
    }
}

fn print_trigger(page: &mut Page, trigger: &BoundTrigger) {
    for row in trigger.rows.as_slice() {
        print_item(page, "row ", row);
    }
    print_optional(page, "when ", &trigger.condition);
    for step in trigger.body.as_slice() {
        print_step(page, step);
    }
}

fn print_step(page: &mut Page, step: &BoundStep) {
    match step {
        BoundStep::Asks(unit, handed) => {
            page.begin("asks ");
            write_unit_call(page, *unit, handed.as_slice());
            page.end();
        }
        BoundStep::Writes(write) => print_write(page, write),
    }
}
