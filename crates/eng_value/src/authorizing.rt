// What an authorizer is asked, and what it answers (Compile-Time Authorization Callbacks).
use crate::Text;

/// What a statement would do.
#[derive(Clone, Copy, PartialEq, Eq)]
pub enum ActionKind {
    Select,
    Read,
    Function,
    Recursive,
    Insert,
    Update,
    Delete,
    CreateTable,
    CreateIndex,
    CreateView,
    CreateTrigger,
    CreateModule,
    DropTable,
    DropIndex,
    DropView,
    DropTrigger,
    Transaction,
    Savepoint,
    Pragma,
}

/// One thing that a statement would do: with the names that it is about, each empty where there is none, and the innermost view or
/// trigger in which it stands.
#[derive(Drop)]
pub struct Action {
    pub kind: ActionKind,
    pub first: Text,
    pub second: Text,
    pub within: Option<Text>,
}

/// Whether it may: Ignore lets a column read NULL, and anything else be done.
#[derive(Clone, Copy, PartialEq, Eq)]
pub enum Verdict {
    Allow,
    Deny,
    Ignore,
}
