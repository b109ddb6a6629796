//! What a write writes and which triggers it fires, as far as no expression and no query has to be bound (INSERT; UPDATE; DELETE; CREATE
//! TRIGGER).
//!
//! Each function is equal to the definition that its contract names (specs of the library sql_bound: Targets, Writes and Triggers; what
//! code has of their records says specs/Meant.antt). A refusal is either that definition's or want of memory. Begin with `Target`.
#![tactic(auto)]

mod allowing;
mod changes;
mod firing;
mod places;
mod rows;
mod sources;
mod targets;
mod triggers;
mod written;

pub use allowing::{may_write_module, may_write_view};
pub use changes::insertion;
pub use firing::can_fire;
pub use places::{found_place, places_named};
pub use rows::event_of;
pub use sources::{module_rows, shown_name};
pub use targets::{not_nulls_of, plain_target};
pub use triggers::{
    captures_of, place_of_trigger, replaces_with, trigger_with, unknown_trigger, with_trigger,
    write_with,
};
pub use written::{Begun, Opened, Target};
