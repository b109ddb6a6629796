// A pair as a tree stores it.
ghost use Rattle.std.specs.Prelude.{◌≡◌, length};
ghost use Rattle.eng_tree.specs.Map.{order};
ghost use Rattle.eng_tree.specs.Prefix.{IsPrefix};

use crate::Bytes;
use std::cmp::Ordering;
use std::marker::Model;
use std::mem;

/// A key and its value, and beside the key the number that its first bytes are. Contracts see the pair.
#[derive(Drop)]
pub(crate) struct Entry {
    prefix: u64,
    key: Bytes,
    value: Bytes,
}

impl Model for Entry {
    ghost use Rattle.eng_tree.specs.Map.{Pair};
    ghost use Rattle.eng_tree.specs.Prefix.{IsPrefix};

    ghost Value = { Pair };

    ghost view = { λ e. (e.key, e.value) };

    ghost invariant = { λ e. IsPrefix e.prefix e.key };
}

impl Entry {
    pub(crate) fn new(key: Bytes, value: Bytes) -> Entry
        ensures { result ≡ (key, value) }
    {
        Entry {
            prefix: prefix_of(key.as_slice()),
            key,
            value,
        }
    }

    pub(crate) fn key(&self) -> &[u8]
        ensures { result.now ≡ self.now.0 }
    {
        self.key.as_slice()
    }

    pub(crate) fn value(&self) -> &[u8]
        ensures { result.now ≡ self.now.1 }
    {
        self.value.as_slice()
    }

    /// Gives the key this value, and answers the one that it had.
    pub(crate) fn replace(&mut self, value: Bytes) -> Bytes
        ensures was { result ≡ self.old.1 }
        ensures now { self.new ≡ (self.old.0, value) }
    {
        mem::replace(&mut self.value, value)
    }

    pub(crate) fn into_pair(self) -> (Bytes, Bytes)
        ensures { (result.0, result.1) ≡ self }
    {
        let Entry {
            prefix: _,
            key,
            value,
        } = self;
        (key, value)
    }

    /// How its key stands to one that is wanted.
    pub(crate) fn order(&self, wanted: &Wanted<'_>) -> Ordering
        ensures { result ≡ order self.now.0 wanted.now }
    {
        order_of(self.prefix, self.key.as_slice(), wanted.prefix, wanted.key)
    }
}

/// A key that is looked for, and the number that its first bytes are. Contracts see the key.
#[derive(Drop)]
pub(crate) struct Wanted<'a> {
    prefix: u64,
    key: &'a [u8],
}

impl<'a> Model for Wanted<'a> {
    ghost use Rattle.std.specs.Prelude.{List, ℕ};
    ghost use Rattle.eng_tree.specs.Prefix.{IsPrefix};

    ghost Value = { List ℕ };

    ghost view = { λ w. w.key.now };

    ghost invariant = { λ w. IsPrefix w.prefix w.key.now };
}

impl<'a> Wanted<'a> {
    pub(crate) fn new(key: &'a [u8]) -> Wanted<'a>
        ensures { result ≡ key.now }
    {
        Wanted {
            prefix: prefix_of(key),
            key,
        }
    }
}

/// The number that the first eight bytes of a key are, high first; 0 where there are fewer. It stands beside a key so that most keys are
/// compared without a look at their bytes.
fn prefix_of(key: &[u8]) -> u64
    ensures { IsPrefix result key.now }
{
    match key {
        [a, b, c, d, e, f, g, h, ..] => { u64::from_be_bytes([*a, *b, *c, *d, *e, *f, *g, *h]) }
        _ => 0,
    }
}

/// How two keys with these prefixes stand to one another.
fn order_of(prefix: u64, key: &[u8], other_prefix: u64, other: &[u8]) -> Ordering
    requires own { IsPrefix prefix key.now }
    requires other { IsPrefix other_prefix other.now }
    ensures { result ≡ order key.now other.now }
{
    if key.len() < 8 || other.len() < 8 {
        return key.cmp(&other);
    }
    match prefix.cmp(&other_prefix) {
        Ordering::Equal => key[8..].cmp(&other[8..]),
        unequal => unequal,
    }
}
