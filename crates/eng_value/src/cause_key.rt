// What tells causes apart.
ghost use Rattle.std.specs.Prelude.{◌≡◌};
ghost use Rattle.eng_value.specs.Causes.{constraint_key, detail_of, is_same_cause, kind_key, limit_key, name_of, number_of};

use crate::{Cause, ConstraintKind, LimitKind, NameKind};

impl Cause {
    /// Whether both are one cause.
    pub fn is_same(&self, other: &Cause) -> bool
        ensures { result ≡ is_same_cause self.now other.now }
    {
        self.number() == other.number()
            && self.detail() == other.detail()
            && self.name() == other.name()
    }

    /// Which cause it is.
    fn number(&self) -> u8
        ensures { result ≡ number_of self.now }
    {
        match self {
            Cause::NotYet => 0,
            Cause::Mem => 1,
            Cause::Interrupted(_) => 2,
            Cause::SinkFault => 3,
            Cause::Full(_) => 4,
            Cause::Real => 5,
            Cause::Overflow => 6,
            Cause::NotText => 7,
            Cause::Escape => 8,
            Cause::TooBig => 9,
            Cause::Limit(_) => 10,
            Cause::Reserved(_) => 11,
            Cause::Arity(_) => 12,
            Cause::Misuse(_) => 13,
            Cause::Unknown(..) => 14,
            Cause::Exists(..) => 15,
            Cause::Syntax(_) => 16,
            Cause::Skip => 17,
            Cause::Ambiguous(_) => 18,
            Cause::BareColumn(_) => 19,
            Cause::Fault(_) => 20,
            Cause::Denied(_) => 21,
            Cause::Constraint(..) => 22,
            Cause::Mismatch => 23,
            Cause::HostRefused(_) => 24,
            Cause::ModuleRefused(_) => 25,
            Cause::TriggerDepth(_) => 26,
            Cause::TransactionState(_) => 27,
            Cause::NoPlan(_) => 28,
            Cause::BestIndex(_) => 29,
            Cause::Locked(..) => 30,
            Cause::Raise(_) => 31,
            Cause::CommitRefused => 32,
            Cause::NotQuery => 33,
            Cause::NoSuchStatement(_) => 34,
            Cause::StatementsFull => 35,
        }
    }

    /// The number that it tells, or the kind.
    fn detail(&self) -> u64
        ensures { result ≡ detail_of self.now }
    {
        match self {
            Cause::Interrupted(instructions) => *instructions,
            Cause::Limit(kind) => limit_key(*kind),
            Cause::Unknown(kind, _) => kind_key(*kind),
            Cause::Exists(kind, _) => kind_key(*kind),
            Cause::Syntax(at) => *at as u64,
            Cause::Denied(action) => *action as u64,
            Cause::Constraint(kind, _) => constraint_key(*kind),
            Cause::TriggerDepth(most) => *most,
            Cause::TransactionState(inside) => u64::from(*inside),
            Cause::Locked(_, number) => *number,
            Cause::NoSuchStatement(number) => *number,
            _ => 0,
        }
    }

    /// The name that it tells.
    fn name(&self) -> &[u8]
        ensures { result.now ≡ name_of self.now }
    {
        match self {
            Cause::Full(name) => name.as_bytes(),
            Cause::Reserved(name) => name.as_bytes(),
            Cause::Arity(name) => name.as_bytes(),
            Cause::Misuse(name) => name.as_bytes(),
            Cause::Unknown(_, name) => name.as_bytes(),
            Cause::Exists(_, name) => name.as_bytes(),
            Cause::Ambiguous(name) => name.as_bytes(),
            Cause::BareColumn(name) => name.as_bytes(),
            Cause::Fault(host) => host.as_bytes(),
            Cause::Constraint(_, table) => table.as_bytes(),
            Cause::HostRefused(text) => text.as_bytes(),
            Cause::ModuleRefused(text) => text.as_bytes(),
            Cause::NoPlan(module) => module.as_bytes(),
            Cause::BestIndex(module) => module.as_bytes(),
            Cause::Locked(table, _) => table.as_bytes(),
            Cause::Raise(text) => text.as_bytes(),
            _ => &[],
        }
    }
}

fn kind_key(kind: NameKind) -> u64
    ensures { result ≡ kind_key kind }
{
    match kind {
        NameKind::Table => 0,
        NameKind::Column => 1,
        NameKind::Function => 2,
        NameKind::Collation => 3,
        NameKind::Pragma => 4,
        NameKind::Module => 5,
        NameKind::Index => 6,
        NameKind::View => 7,
        NameKind::Trigger => 8,
        NameKind::Savepoint => 9,
    }
}

fn constraint_key(kind: ConstraintKind) -> u64
    ensures { result ≡ constraint_key kind }
{
    match kind {
        ConstraintKind::NotNull => 0,
        ConstraintKind::Check => 1,
        ConstraintKind::Unique => 2,
    }
}

fn limit_key(kind: LimitKind) -> u64
    ensures { result ≡ limit_key kind }
{
    match kind {
        LimitKind::Columns => 0,
        LimitKind::Nestings => 1,
        LimitKind::Operators => 2,
        LimitKind::Parts => 3,
        LimitKind::Items => 4,
        LimitKind::Queries => 5,
        LimitKind::Rows => 6,
        LimitKind::Asks => 7,
    }
}
