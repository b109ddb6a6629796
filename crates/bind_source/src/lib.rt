//! The items of a FROM, as far as no expression and no query has to be bound: where their rows come from.
#![tactic(auto)]

mod items;
mod modules;
mod sources;

pub use items::{has_room, kind_of_join, plain_item, with_item};
pub use modules::{
    arguments_fit, columns_told, module_column, module_source, module_there, without_arguments,
};
pub use sources::{
    as_column, as_columns, collation_of_result, declared_source, no_table, of_queue, of_table,
    plain_source, with_source,
};
