// What the keys promise whoever stores them. Nothing here runs: each contract is a law.
ghost use Rattle.std.specs.Prelude.{◌≡◌, ℤ, Some, replicate};
ghost use Rattle.std.specs.Cmp.Lexicographic.{slice_cmp};
ghost use Rattle.std.specs.Ordering.{int_cmp, nat_cmp};
ghost use Rattle.eng_key.specs.RowKeys.{FrontsBound};
ghost use Rattle.eng_key.specs.Rowids.{IsRowid, least_rowid, rowid_key, rowid_of};
ghost use Rattle.eng_key.specs.Values.{value_key};
ghost use Rattle.eng_value.specs.Collations.{compare};
ghost use Rattle.eng_value.specs.declared.value.Value.TheVariants.{Integer};

use eng_value::{Built, Value};

/// Keys stand to one another, byte by byte, as their rowids do.
#[tactic(auto, using(crate::proofs::RowidLaws::keys_keep_the_order))]
pub fn keys_keep_the_order(a: i64, b: i64)
    ensures { slice_cmp nat_cmp (rowid_key a) (rowid_key b) ≡ int_cmp a b }
{}

/// The key of a rowid gives the rowid back, so that no two rowids have the same key.
#[tactic(auto, using(crate::proofs::RowidLaws::rowid_comes_back))]
pub fn rowid_comes_back(rowid: i64)
    ensures { rowid_of (rowid_key rowid) ≡ Some rowid }
{}

/// Bytes that give a rowid are that rowid's key.
pub fn keys_are_of_rowids(key: &[u8])
    ensures { (n : ℤ) → rowid_of key.now ≡ Some n → (key.now ≡ rowid_key n) × IsRowid n }
{}

/// The least rowid has the least key.
#[tactic(auto, unfolding(crate::specs::Rowids::rowid_key))]
pub fn least_key_is_zeros()
    ensures { rowid_key least_rowid ≡ replicate 8 0 }
{}

/// Keys stand to one another, byte by byte, as their values do under the collation.
#[tactic(auto, using(crate::proofs::ValueLaws::key_of_null, crate::proofs::ValueLaws::key_of_text, crate::proofs::ValueLaws::key_of_blob))]
pub fn keys_of_values_keep_the_order(collation: Built, a: &Value, b: &Value)
    ensures { slice_cmp nat_cmp (value_key collation a.now) (value_key collation b.now) ≡ compare collation a.now b.now }
{
    match a {
        Value::Null | Value::Text(_) | Value::Blob(_) => (),
        Value::Integer(n) => keys_of_integers_keep_the_order(collation, *n, b),
    }
}

#[tactic(auto, using(crate::proofs::ValueLaws::keys_of_integers, crate::proofs::ValueLaws::key_beside_null, crate::proofs::ValueLaws::key_beside_text, crate::proofs::ValueLaws::key_beside_blob))]
fn keys_of_integers_keep_the_order(collation: Built, a: i64, b: &Value)
    ensures { slice_cmp nat_cmp (value_key collation (Integer a)) (value_key collation b.now) ≡ compare collation (Integer a) b.now }
{
    match b {
        Value::Null | Value::Text(_) | Value::Blob(_) => (),
        Value::Integer(n) => keys_keep_the_order(a, *n),
    }
}

/// A front and what stands behind it bound the keys that begin with the front, and no others lie between.
pub fn fronts_bound_their_keys()
    ensures { FrontsBound }
{}
