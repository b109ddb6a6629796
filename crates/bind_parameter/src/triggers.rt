// Whether a parameter stands in a trigger.
ghost use Rattle.std.specs.Prelude.{◌≡◌, map};
ghost use Rattle.std.specs.List.{list_any};
ghost use Rattle.sql_bound.specs.Parameters.{command_has_parameter, expr_has_parameter, option_has_parameter, source_has_parameter, trigger_has_parameter};
ghost use Rattle.sql_tree.specs.declared.statement.Assignment.{Assignment};

use crate::expressions::expr_has;
use crate::queries::query_has;
use sql_tree::{Assignment, Expr, InsertSource, RowCommand, TriggerDefinition};

/// Whether a parameter stands in the WHEN or in the body of a trigger.
pub fn trigger_has_parameter(trigger: &TriggerDefinition) -> bool
    ensures { result ≡ trigger_has_parameter trigger.now }
{
    option_has(&trigger.condition) || any_command_has(trigger.body.as_slice())
}

fn any_command_has(commands: &[RowCommand]) -> bool
    ensures { result ≡ list_any command_has_parameter commands.now }
{
    commands.iter().any(|command| command_has(command))
}

fn option_has(e: &Option<Expr>) -> bool
    ensures { result ≡ option_has_parameter e.now }
{
    match e {
        Some(e) => expr_has(e),
        None => false,
    }
}

fn command_has(command: &RowCommand) -> bool
    ensures { result ≡ command_has_parameter command.now }
{
    match command {
        RowCommand::Query(query) => query_has(query),
        RowCommand::Insert(insert) => source_has(&insert.source),
        RowCommand::Update(update) => {
            any_assignment_has(update.assignments.as_slice()) || option_has(&update.filter)
        }
        RowCommand::Delete(delete) => option_has(&delete.filter),
    }
}

fn source_has(source: &InsertSource) -> bool
    ensures { result ≡ source_has_parameter source.now }
{
    match source {
        InsertSource::Query(query) => query_has(query),
        InsertSource::Defaults => false,
    }
}

fn any_assignment_has(assignments: &[Assignment]) -> bool
    ensures { result ≡ list_any (λ (a : Assignment). expr_has_parameter a.value) assignments.now }
{
    assignments.iter().any(|a| expr_has(&a.value))
}
