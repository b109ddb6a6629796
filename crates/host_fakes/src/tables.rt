// An authorizer that answers by a table of verdicts.
ghost use Rattle.std.specs.Prelude.{◌≡◌, IfOk, Some};
ghost use Rattle.std.specs.List.{find};
ghost use Rattle.std.specs.Option.{option_copied};
ghost use Rattle.host_fakes.specs.Tables.{fits, verdict_by};

use eng_value::{Action, ActionKind, Text, Verdict};
use host_traits::Authorizer;
use std::alloc::{AllocError, Global};

/// A row of a table: the actions of this kind and of these names get this verdict, wherever they stand.
#[derive(Drop)]
pub struct VerdictRow {
    pub kind: ActionKind,
    pub first: Text,
    pub second: Text,
    pub verdict: Verdict,
}

impl VerdictRow {
    /// A row; a name is empty where an action of its kind has none there.
    pub fn new(
        alloc: Global,
        kind: ActionKind,
        first: &str,
        second: &str,
        verdict: Verdict,
    ) -> Result<VerdictRow, AllocError>
        ensures { IfOk result (λ row. row ≡ record { kind = kind; first = first.now; second = second.now; verdict = verdict }) }
    {
        Ok(VerdictRow {
            kind,
            first: Text::from_str(alloc, first)?,
            second: Text::from_str(alloc, second)?,
            verdict,
        })
    }

    /// Whether an action is one of the row's.
    fn fits(&self, action: &Action) -> bool
        ensures { result ≡ fits action.now self.now }
    {
        self.kind == action.kind
            && self.first.as_str() == action.first.as_str()
            && self.second.as_str() == action.second.as_str()
    }
}

/// An authorizer by a table: the first row that fits an action says its verdict, and what no row fits is allowed.
#[derive(Drop)]
pub struct TableAuthorizer {
    rows: Vec<VerdictRow>,
}

impl TableAuthorizer {
    ghost use Rattle.std.specs.Prelude.{◌≡◌, Some};
    ghost use Rattle.host_fakes.specs.Tables.{verdict_by};

    /// An authorizer by these rows, which tells them.
    pub fn new(rows: Vec<VerdictRow>) -> Self
        ensures { ⟦<TableAuthorizer as Authorizer>⟧.verdicts result ≡ Some (verdict_by rows.items) }
    {
        TableAuthorizer { rows }
    }
}

impl Authorizer for TableAuthorizer {
    ghost verdicts = { λ a. Some (verdict_by a.rows.items) };

    fn ask(&mut self, action: &Action) -> Verdict {
        verdict_in(&self.rows, action)
    }
}

/// The first row that fits.
fn first_fitting<'a>(rows: &'a [VerdictRow], action: &Action) -> Option<&'a VerdictRow>
    ensures { option_copied result ≡ find (fits action.now) rows.now }
{
    rows.iter().find(|row| row.fits(action))
}

/// Its verdict.
fn verdict_in(rows: &[VerdictRow], action: &Action) -> Verdict
    ensures { result ≡ verdict_by rows.now action.now }
{
    match first_fitting(rows, action) {
        Some(row) => row.verdict,
        None => Verdict::Allow,
    }
}
