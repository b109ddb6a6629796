// The keys of rowids.
ghost use Rattle.std.specs.Prelude.{◌≡◌};
ghost use Rattle.eng_key.specs.Rowids.{rowid_at, rowid_key, rowid_of};

/// The key of a rowid: eight bytes, high first, of how far the rowid is from the least one (Rowid Tables). The bytes of two
/// keys stand to one another as their rowids do.
#[tactic(auto, unfolding(crate::specs::Rowids::rowid_key))]
pub fn rowid_key(rowid: i64) -> [u8; 8]
    ensures { result ≡ rowid_key rowid }
{
    rowid.abs_diff(i64::MIN).to_be_bytes()
}

/// The rowid whose key this is, and None for bytes that are no rowid's key, of which there are more or fewer than eight.
#[tactic(auto, unfolding(crate::specs::Rowids::rowid_of))]
pub fn rowid_of_key(key: &[u8]) -> Option<i64>
    ensures { result ≡ rowid_of key.now }
{
    match key.as_array::<8>() {
        None => None,
        Some(bytes) => Some(rowid_at(u64::from_be_bytes(*bytes))),
    }
}

// The rowid that is so far from the least one.
fn rowid_at(distance: u64) -> i64
    ensures { result ≡ rowid_at distance }
{
    i64::MIN.saturating_add_unsigned(distance)
}
