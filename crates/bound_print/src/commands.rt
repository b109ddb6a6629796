// Whole statements.
use crate::Page;
use crate::items::write_parts;
use crate::units::print_units;
use crate::words::write_quoted;
use crate::writes::{print_triggers, print_write};
use bound_tree::{
    BoundCommand, BoundCreation, BoundRemoval, BoundStatement, BoundTransaction, ThingKind,
};
use eng_value::Text;
use sql_tree::Explain;

/// Prints a statement: its units, its triggers and its command, each in its lines.
pub fn print_statement(page: &mut Page, statement: &BoundStatement) {
    match statement.explain {
        None => {}
        Some(Explain::Instructions) => page.line("explain"),
        Some(Explain::QueryPlan) => page.line("explain query plan"),
    }
    print_units(page, statement.units.as_slice());
    print_triggers(page, statement.triggers.as_slice());
    print_command(page, &statement.command);
}

fn print_command(page: &mut Page, command: &BoundCommand) {
    match command {
        BoundCommand::Asked(unit) => {
            page.begin("asks u");
            page.write_place(*unit);
            page.end();
        }
        BoundCommand::Written(write) => print_write(page, write),
        BoundCommand::Created(creation) => print_creation(page, creation),
        BoundCommand::Removed(removal) => print_removal(page, removal),
        BoundCommand::Transacted(transaction) => print_transaction(page, transaction),
        BoundCommand::Pragma(name) => print_named(page, "pragma ", name),
        BoundCommand::Nothing(kind, name, owner) => {
            print_nothing(page, *kind, name.as_str(), owner.as_str());
        }
    }
}

/// A line of a word and a name.
fn print_named(page: &mut Page, word: &str, name: &Text) {
    page.begin(word);
    page.write(name.as_str());
    page.end();
}

fn kind_word(kind: ThingKind) -> &'static str {
    match kind {
        ThingKind::ATable => "table ",
        ThingKind::AModuleTable => "module ",
        ThingKind::AnIndex => "index ",
        ThingKind::AView => "view ",
        ThingKind::ATrigger => "trigger ",
    }
}

fn print_creation(page: &mut Page, creation: &BoundCreation) {
    page.begin("create ");
    page.write(if creation.unique { "unique " } else { "" });
    page.write(kind_word(creation.kind));
    page.write(creation.name.as_str());
    match creation.kind {
        ThingKind::ATable | ThingKind::AView => {}
        ThingKind::AModuleTable => {
            page.write(" ");
            page.write(creation.owner.as_str());
        }
        ThingKind::AnIndex | ThingKind::ATrigger => {
            page.write(" on ");
            page.write(creation.owner.as_str());
        }
    }
    if !creation.parts.as_slice().is_empty() {
        write_parts(page, creation.parts.as_slice());
    }
    write_arguments(page, creation.arguments.as_slice());
    page.end();
}

fn write_arguments(page: &mut Page, arguments: &[Text]) {
    for (place, argument) in arguments.iter().enumerate() {
        page.write(if place > 0 { ", " } else { " " });
        write_quoted(page, argument.as_bytes());
    }
}

fn print_removal(page: &mut Page, removal: &BoundRemoval) {
    page.begin("drop ");
    page.write(kind_word(removal.kind));
    page.write(removal.name.as_str());
    match removal.kind {
        ThingKind::ATable | ThingKind::AView => {}
        ThingKind::AModuleTable => {
            page.write(" ");
            page.write(removal.owner.as_str());
        }
        ThingKind::AnIndex | ThingKind::ATrigger => {
            page.write(" on ");
            page.write(removal.owner.as_str());
        }
    }
    page.end();
}

fn print_transaction(page: &mut Page, transaction: &BoundTransaction) {
    match transaction {
        BoundTransaction::Begins => page.line("begin"),
        BoundTransaction::Commits => page.line("commit"),
        BoundTransaction::RollsBack => page.line("rollback"),
        BoundTransaction::RollsBackTo(name) => print_named(page, "rollback to ", name),
        BoundTransaction::Saves(name) => print_named(page, "savepoint ", name),
        BoundTransaction::Releases(name) => print_named(page, "release ", name),
    }
}

fn print_nothing(page: &mut Page, kind: ThingKind, name: &str, owner: &str) {
    page.begin("nothing ");
    page.write(kind_word(kind));
    page.write(name);
    if !owner.is_empty() {
        page.write(" ");
        page.write(owner);
    }
    page.end();
}
