//! The keys of B-trees: lists of bytes whose order, byte by byte, is the order of what they stand for.
//!
//! There are those of rowids, of eight bytes (specs/Rowids.antt), those of single values under a collation (specs/Values.antt), and
//! those of rows in parts, of which each shows where it ends (specs/RowKeys.antt): these are the keys of indexes. That keys stand to one
//! another as their rowids and their values do, that a key of a rowid is that of one alone, and that a front bounds the keys that begin
//! with it, are the contracts of the module `laws`; that of rows stands at `key`. Begin with `rowid_key`.
#![tactic(auto)]

mod key_part;
mod laws;
mod row_key;
mod rowid;
mod spelling;
mod values;

pub use key_part::KeyPart;
pub use laws::{
    fronts_bound_their_keys, keys_are_of_rowids, keys_keep_the_order,
    keys_of_values_keep_the_order, least_key_is_zeros, rowid_comes_back,
};
pub use row_key::{behind_front, key};
pub use rowid::{rowid_key, rowid_of_key};
pub use values::{value_key, value_key_under};
