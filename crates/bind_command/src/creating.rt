// What is created, as far as nothing is bound in it: views, whose query is bound at each use, and tables of modules.
ghost use Rattle.std.specs.Prelude.{◌≡◌, [], map, codes, IfOk, Ok, Err};
ghost use Rattle.eng_value.specs.declared.cause.Cause.TheVariants.{Misuse};
ghost use Rattle.sql_bound.specs.Answers.{Answers, OnlyMem};
ghost use Rattle.sql_bound.specs.Creates.{argument_text, creation_of, module_created, nothing_created, view_created, without_parameter};
ghost use Rattle.sql_bound.specs.HostFacts.{facts_of};
ghost use Rattle.sql_words.specs.Spelled.{name_at};
ghost use Rattle.bound_tree.specs.declared.statements.BoundCommand.TheVariants as bound_command;
ghost use Rattle.bind_command.specs.Tops.{top_of};
ghost use Rattle.bound_tree.specs.declared.statements.ThingKind.TheVariants.{AModuleTable};

use crate::names::table_called;
use bind_column::within_columns;
use bind_entry::{host_module, name, put};
use bind_parameter::query_has_parameter;
use bind_scope::text_of;
use bound_tree::{BoundCommand, BoundCreation, ThingKind};
use eng_catalog::Catalog;
use eng_value::{Cause, NameKind, Text};
use sql_bound::HostFacts;
use sql_tree::{Definition, Span, ViewDefinition, VirtualTableDefinition};
use sqlite_items::Items;
use std::alloc::Global;

/// A thing of this kind, name and owner, of which nothing more is told.
pub fn creation_of(alloc: Global, kind: ThingKind, name: Text, owner: Text) -> BoundCreation
    ensures { result ≡ creation_of kind name owner }
{
    BoundCreation {
        kind,
        name,
        owner,
        unique: false,
        parts: Items::new(alloc),
        arguments: Items::new(alloc),
    }
}

/// CREATE VIEW: no more column names than columns may be, and no parameter.
pub fn view_created(
    alloc: Global,
    text: &str,
    name: Text,
    view: &ViewDefinition,
) -> Result<BoundCreation, Cause>
    ensures { Answers (view_created text.now name view.now) result }
{
    within_columns(view.columns.as_slice())?;
    without_parameter(alloc, query_has_parameter(&view.query))?;
    Ok(creation_of(alloc, ThingKind::AView, name, text_of(alloc, "")?))
}

/// What a CREATE keeps has no parameter.
pub fn without_parameter(alloc: Global, has: bool) -> Result<(), Cause>
    ensures { Answers (without_parameter has) result }
{
    if has {
        Err(Cause::Misuse(text_of(alloc, "?")?))
    } else {
        Ok(())
    }
}

/// CREATE VIRTUAL TABLE: the module is there, and what the table is made of are texts (The Virtual Table Mechanism Of SQLite).
pub fn module_created(
    alloc: Global,
    text: &str,
    facts: &HostFacts,
    name: Text,
    table: &VirtualTableDefinition,
) -> Result<BoundCreation, Cause>
    ensures { Answers (module_created text.now name table.now ((facts_of facts.now).host_module (name_at text.now table.now.module_name))) result }
{
    let module = bind_entry::name(alloc, text, &table.module_name)?;
    match host_module(facts, module.as_str()) {
        Some(_) => {
            let arguments = argument_texts(alloc, text, table.arguments.as_slice())?;
            Ok(module_creation(alloc, name, module, arguments))
        }
        None => Err(Cause::Unknown(NameKind::Module, module)),
    }
}

fn module_creation(alloc: Global, name: Text, owner: Text, arguments: Items<Text>) -> BoundCreation
    ensures { result ≡ record (creation_of AModuleTable name owner) { arguments = arguments } }
{
    BoundCreation {
        kind: ThingKind::AModuleTable,
        name,
        owner,
        unique: false,
        parts: Items::new(alloc),
        arguments,
    }
}

fn argument_texts(
    alloc: Global,
    text: &str,
    arguments: &[Option<Span>],
) -> Result<Items<Text>, Cause>
    ensures ok { IfOk result (λ texts. texts ≡ map (argument_text text.now) arguments.now) }
    ensures mem { OnlyMem result }
{
    let mut texts = Items::new(alloc);
    for argument in arguments {
        put(&mut texts, argument_text(alloc, text, argument)?)?;
    }
    Ok(texts)
}

fn argument_text(alloc: Global, text: &str, argument: &Option<Span>) -> Result<Text, Cause>
    ensures ok { IfOk result (λ t. t ≡ argument_text text.now argument.now) }
    ensures mem { OnlyMem result }
{
    match argument {
        Some(span) => bind_result::text_of(alloc, text, *span),
        None => text_of(alloc, ""),
    }
}

/// IF NOT EXISTS found the name, which is told as it was created: nothing is created.
pub fn nothing_created(
    alloc: Global,
    text: &str,
    catalog: &Catalog,
    facts: &HostFacts,
    called: Text,
    definition: &Definition,
) -> Result<BoundCommand, Cause>
    ensures ok { IfOk result (λ b. b ≡ nothing_created (top_of catalog.now facts.now text.now) called definition.now) }
    ensures mem { OnlyMem result }
{
    match definition {
        Definition::Table(_) => nothing(ThingKind::ATable, called, text_of(alloc, "")?),
        Definition::View(_) => nothing(ThingKind::AView, called, text_of(alloc, "")?),
        Definition::Index(index) => {
            let table = table_called(alloc, text, catalog, facts, &index.table)?;
            nothing(ThingKind::AnIndex, called, table)
        }
        Definition::Trigger(trigger) => {
            let table = table_called(alloc, text, catalog, facts, &trigger.table)?;
            nothing(ThingKind::ATrigger, called, table)
        }
        Definition::VirtualTable(table) => {
            let module = name(alloc, text, &table.module_name)?;
            nothing(ThingKind::AModuleTable, called, module)
        }
    }
}

fn nothing(kind: ThingKind, called: Text, owner: Text) -> Result<BoundCommand, Cause>
    ensures { result ≡ Ok (bound_command.Nothing kind called owner) }
{
    Ok(BoundCommand::Nothing(kind, called, owner))
}
