// A map as a vector of pairs in the order of their keys.
ghost use Rattle.std.specs.Prelude.{◌≡◌, ◌≤◌, [], length, IfOk, OnErr, None, option_map, slice_get, MatchResult};
ghost use Rattle.eng_tree.specs.Map.{find, greatest, least_from, put, without, IsAscending, IsFree, IsThere};

use crate::Bytes;
use crate::entry::Entry;
use crate::search::{place_of, search, search_near};
use std::alloc::{AllocError, Global};
use std::marker::Model;

/// A finite map from keys to values, both of them byte strings. Contracts see its pairs in the order of their keys, and its
/// room: how many pairs fit in the memory that it holds.
#[derive(Drop)]
pub struct Tree {
    entries: Vec<Entry>,
}

impl Model for Tree {
    ghost use Rattle.eng_tree.specs.Map.{Map, IsAscending};
    ghost use Rattle.std.specs.Prelude.{vec_capacity};

    ghost Value = { Map };

    ghost view = { λ t. record { pairs = t.entries.items; room = vec_capacity t.entries } };

    ghost invariant = { λ t. IsAscending t.entries.items };
}

impl Tree {
    /// A map with no pairs. Takes no memory.
    pub fn new(alloc: Global) -> Tree
        ensures { result.pairs ≡ [] }
    {
        Tree {
            entries: Vec::new(alloc),
        }
    }

    /// How many pairs there are.
    pub fn len(&self) -> usize
        ensures len { result ≡ length self.now.pairs }
        ensures order { IsAscending self.now.pairs }
        ensures room { length self.now.pairs ≤ self.now.room }
    {
        self.entries.len()
    }

    /// The value of a key.
    pub fn get(&self, key: &[u8]) -> Option<&[u8]>
        ensures { option_map (λ v. v.now) result ≡ find key.now self.now.pairs }
    {
        match search(&self.entries, key) {
            Ok(at) => Some(self.entries[at].value()),
            Err(_) => None,
        }
    }

    /// The same in constant time where the key's pair stands at the place `near`, or right behind it. Any other `near`
    /// only costs time. `seek_near` leaves such places.
    pub fn get_near(&self, key: &[u8], near: usize) -> Option<&[u8]>
        ensures { option_map (λ v. v.now) result ≡ find key.now self.now.pairs }
    {
        match search_near(&self.entries, key, near) {
            Ok(place) => Some(self.entries[place].value()),
            Err(_) => None,
        }
    }

    /// The pair of the least key that is not below this one.
    pub fn seek(&self, key: &[u8]) -> Option<(&[u8], &[u8])>
        ensures { option_map (λ p. (p.0.now, p.1.now)) result ≡ least_from key.now self.now.pairs }
    {
        self.pair_at(place_of(search(&self.entries, key)))
    }

    /// The same in constant time where the pair stands at the place `near`, or right behind it. Any other `near` only
    /// costs time. Leaves the pair's place in `near`, so that the next pairs are found by it.
    pub fn seek_near(&self, key: &[u8], near: &mut usize) -> Option<(&[u8], &[u8])>
        ensures { option_map (λ p. (p.0.now, p.1.now)) result ≡ least_from key.now self.now.pairs }
    {
        *near = place_of(search_near(&self.entries, key, *near));
        self.pair_at(*near)
    }

    /// The place of a key in the order of the keys, or, where it is not there, the place at which it would stand.
    pub fn place(&self, key: &[u8]) -> Result<usize, usize>
        ensures place { MatchResult result (IsThere key.now self.now.pairs) (IsFree key.now self.now.pairs) }
        ensures order { IsAscending self.now.pairs }
    {
        search(&self.entries, key)
    }

    /// The pair of the greatest key.
    pub fn last(&self) -> Option<(&[u8], &[u8])>
        ensures { option_map (λ p. (p.0.now, p.1.now)) result ≡ greatest self.now.pairs }
    {
        match self.entries.last() {
            Some(entry) => Some((entry.key(), entry.value())),
            None => None,
        }
    }

    /// The pair at a place in the order of the keys, or none past the end.
    pub fn pair_at(&self, at: usize) -> Option<(&[u8], &[u8])>
        ensures { option_map (λ p. (p.0.now, p.1.now)) result ≡ slice_get self.now.pairs at }
    {
        match self.entries.get(at) {
            Some(entry) => Some((entry.key(), entry.value())),
            None => None,
        }
    }

    /// Gives the key this value, and answers the one that it had. Where memory is wanting, which is only where the key is
    /// new and the room is full, nothing has changed. A key above all others takes constant time, but for the memory.
    pub fn insert(&mut self, key: Bytes, value: Bytes) -> Result<Option<Bytes>, AllocError>
        ensures pairs { MatchResult result (λ _. self.new.pairs ≡ put key value self.old.pairs) (λ _. self.new.pairs ≡ self.old.pairs) }
        ensures was { IfOk result (λ old. old ≡ find key self.old.pairs) }
        ensures full { OnErr result (length self.old.pairs ≡ self.old.room) }
        ensures free { OnErr result (find key self.old.pairs ≡ None) }
        ensures room { self.old.room ≤ self.new.room }
        ensures order { IsAscending self.old.pairs }
        ensures fits { length self.new.pairs ≤ self.new.room }
    {
        let last = self.len().saturating_sub(1);
        match search_near(&self.entries, key.as_slice(), last) {
            Ok(at) => Ok(Some(self.entries[at].replace(value))),
            Err(at) => {
                self.entries.insert(at, Entry::new(key, value))?;
                Ok(None)
            }
        }
    }

    /// Takes out the key, and answers its pair. Takes no memory.
    pub fn remove(&mut self, key: &[u8]) -> Option<(Bytes, Bytes)>
        ensures pairs { self.new.pairs ≡ without key.now self.old.pairs }
        ensures was { result ≡ option_map (λ v. (key.now, v)) (find key.now self.old.pairs) }
        ensures room { self.new.room ≡ self.old.room }
        ensures order { IsAscending self.old.pairs }
        ensures fits { length self.new.pairs ≤ self.new.room }
    {
        match search(&self.entries, key) {
            Ok(at) => Some(self.entries.remove(at).into_pair()),
            Err(_) => None,
        }
    }
}
