// Entries of doubles.
ghost use Rattle.std.specs.Prelude.{◌≡◌, ◌+◌, ◌==◌, ◌&&◌, length};
ghost use Rattle.std.specs.Ordering.{is_eq};
ghost use Rattle.eng_tree.specs.Map.{order};
ghost use Rattle.eng_index.specs.Doubles.{doubles_at, has_neighbours, terms_of};

use eng_tree::Tree;

const ROWID_PART: usize = 9;

/// Whether some entry is the double of the next one.
pub(crate) fn has_neighbours(tree: &Tree) -> bool
    ensures { result ≡ has_neighbours tree.now.pairs }
{
    for place in 0..tree.len() {
        if doubles_at(tree, place, place + 1) {
            return true;
        }
    }
    false
}

fn doubles_at(tree: &Tree, place: usize, next: usize) -> bool
    requires { next ≡ place + 1 }
    ensures { result ≡ doubles_at tree.now.pairs place }
{
    match tree.pair_at(place) {
        None => false,
        Some((key, mark)) => match tree.pair_at(next) {
            None => false,
            Some((behind, _)) => are_doubles(key, mark, behind),
        },
    }
}

/// Whether the entry of this key and mark is the double of one of that key.
fn are_doubles(key: &[u8], mark: &[u8], other: &[u8]) -> bool
    ensures { result ≡ ((length mark.now == 0) && is_eq (order (terms_of key.now) (terms_of other.now))) }
{
    mark.is_empty() && terms_of(key).cmp(&terms_of(other)).is_eq()
}

/// A key without its rowid.
fn terms_of(key: &[u8]) -> &[u8]
    ensures { result.now ≡ terms_of key.now }
{
    &key[..key.len().saturating_sub(ROWID_PART)]
}
