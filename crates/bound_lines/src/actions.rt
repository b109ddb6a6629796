// Lines of what an authorizer is asked about a statement.
use bound_print::Page;
use eng_value::{Action, ActionKind};

/// Prints actions, one a line: the kind, the names in brackets, and behind `in` the innermost view or trigger.
pub(crate) fn print_actions(page: &mut Page, actions: &[Action]) {
    for action in actions {
        page.begin(kind_word(action.kind));
        write_names(page, action);
        write_within(page, action);
        page.end();
    }
}

fn kind_word(kind: ActionKind) -> &'static str {
    match kind {
        ActionKind::Select => "Select",
        ActionKind::Read => "Read",
        ActionKind::Function => "Function",
        ActionKind::Recursive => "Recursive",
        ActionKind::Insert => "Insert",
        ActionKind::Update => "Update",
        ActionKind::Delete => "Delete",
        ActionKind::CreateTable => "CreateTable",
        ActionKind::CreateIndex => "CreateIndex",
        ActionKind::CreateView => "CreateView",
        ActionKind::CreateTrigger => "CreateTrigger",
        ActionKind::CreateModule => "CreateModule",
        ActionKind::DropTable => "DropTable",
        ActionKind::DropIndex => "DropIndex",
        ActionKind::DropView => "DropView",
        ActionKind::DropTrigger => "DropTrigger",
        ActionKind::Transaction => "Transaction",
        ActionKind::Savepoint => "Savepoint",
        ActionKind::Pragma => "Pragma",
    }
}

/// Writes the names of an action in brackets, where it has some; a read has two, and no column where the table alone is read.
fn write_names(page: &mut Page, action: &Action) {
    let first = action.first.as_str();
    let second = action.second.as_str();
    if first.is_empty() && second.is_empty() {
        return;
    }
    page.write("(");
    write_name(page, first);
    if !second.is_empty() || action.kind == ActionKind::Read {
        page.write(", ");
        write_name(page, second);
    }
    page.write(")");
}

/// Writes a name, between quotes where it is empty.
fn write_name(page: &mut Page, name: &str) {
    page.write(if name.is_empty() { "\"\"" } else { name });
}

fn write_within(page: &mut Page, action: &Action) {
    if let Some(within) = &action.within {
        page.write(" in ");
        write_name(page, within.as_str());
    }
}
