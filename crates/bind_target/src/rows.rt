// OLD and NEW, the rows of a trigger (CREATE TRIGGER, section 2).
ghost use Rattle.std.specs.Prelude.{◌≡◌, IfOk};
ghost use Rattle.sql_bound.specs.Answers.{OnlyMem};
ghost use Rattle.sql_bound.specs.Triggers.{event_of, row_item};

use bind_scope::text_of;
use bound_tree::{BoundItem, BoundSource, FiringEvent, JoinKind, copied_columns};
use eng_value::Cause;
use sql_bound::Sourced;
use sql_tree::TriggerEvent;
use sqlite_items::Items;
use std::alloc::Global;

/// OLD or NEW as an item.
pub(crate) fn row_item(alloc: Global, name: &str, s: &Sourced) -> Result<BoundItem, Cause>
    ensures ok { IfOk result (λ item. item ≡ row_item name.now s.now) }
    ensures mem { OnlyMem result }
{
    let shown = text_of(alloc, name)?;
    let columns = copied_columns(alloc, s.columns.as_slice())?;
    let kinds = Items::from_slice(alloc, s.kinds.as_slice())?;
    Ok(BoundItem {
        join: JoinKind::Inner,
        ons: Items::new(alloc),
        ons_made: true,
        shown,
        source: BoundSource::Given,
        columns,
        kinds,
        rowid: s.rowid,
        indexes: Items::new(alloc),
        ignored: Items::new(alloc),
    })
}

/// What a trigger fires at.
pub fn event_of(event: &TriggerEvent) -> FiringEvent
    ensures { result ≡ event_of event.now }
{
    match event {
        TriggerEvent::Delete => FiringEvent::AtDelete,
        TriggerEvent::Insert => FiringEvent::AtInsert,
        TriggerEvent::Update(_) => FiringEvent::AtUpdate,
    }
}
