//! What the entries of a catalog declare, and what hosts tell, by names.
#![tactic(auto)]

mod columns;
mod entries;
mod facts;
mod indexes;
mod keys;
mod lasting;
mod memory;
mod rowids;
mod tables;

pub use columns::{
    check_in, declared_column, declared_columns, default_of, is_not_null, or_bytes, table_check_in,
    type_affinity,
};
pub use entries::{
    definition_of, index_of, is_index_of, table_named, table_of, trigger_of, view_of,
};
pub use facts::{
    aggregate, collation_named, collation_place, collation_there, host_module, savepoint, scalar,
    told_columns,
};
pub use indexes::{index_with, indexes_of, key_name};
pub use keys::{index_parts, own_keys, place_of_column, put_table_key};
pub use lasting::{collation_called, collations_kept};
pub use memory::{copied, name, put, small};
pub use rowids::rowid_of;
pub use tables::{Declared, declared_table};
