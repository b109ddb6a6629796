// A cursor as a place.
ghost use Rattle.std.specs.Prelude.{◌≡◌, ◌+◌, None, Some, false, is_some, option_map};
ghost use Rattle.eng_cursor.specs.Places.{from_gap, from_key, in_front, next_of, prev_of, rewound, row_at, sought, within};

use eng_tree::Tree;
use std::marker::Model;

/// An end of a tree: its pair with the least key, or that with the greatest.
#[derive(Clone, Copy)]
pub enum End {
    First,
    Last,
}

/// How the key of the row that is sought stands to the given one: not below it, above, not above, or below.
#[derive(Clone, Copy)]
pub enum How {
    Ge,
    Gt,
    Le,
    Lt,
}

/// A place in the list of a tree's pairs, or on no row. The moves answer whether the cursor is on a row, and take no memory.
#[derive(Drop)]
pub struct Cursor {
    place: Option<usize>,
}

impl Model for Cursor {
    ghost use Rattle.std.specs.Prelude.{Option, ℕ};

    ghost Value = { Option ℕ };

    ghost view = { λ c. c.place };
}

impl Cursor {
    /// A cursor on no row.
    pub fn new() -> Cursor
        ensures { result ≡ None }
    {
        Cursor { place: None }
    }

    /// Moves to an end.
    pub fn rewind(&mut self, t: &Tree, end: End) -> bool
        ensures place { self.new ≡ rewound end t.now.pairs }
        ensures on_row { result ≡ is_some self.new }
    {
        match end {
            End::First => self.move_to(t, 0),
            End::Last => self.move_in_front(t, t.len()),
        }
    }

    /// Moves one on, and off the last row to none. On no row it stays so.
    pub fn next(&mut self, t: &Tree) -> bool
        ensures place { self.new ≡ next_of t.now.pairs self.old }
        ensures on_row { result ≡ is_some self.new }
    {
        match self.place {
            Some(at) => self.move_behind(t, at),
            None => false,
        }
    }

    /// Moves one back, and off the first row to none. On no row it stays so.
    pub fn prev(&mut self, t: &Tree) -> bool
        ensures place { self.new ≡ prev_of t.now.pairs self.old }
        ensures on_row { result ≡ is_some self.new }
    {
        match self.place {
            Some(at) => self.move_in_front(t, at),
            None => false,
        }
    }

    /// Moves to the row whose key is nearest to this one on the side that is asked for.
    pub fn seek(&mut self, t: &Tree, key: &[u8], how: How) -> bool
        ensures place { self.new ≡ sought how key.now t.now.pairs }
        ensures on_row { result ≡ is_some self.new }
    {
        match t.place(key) {
            Ok(at) => self.seek_from_key(t, at, how),
            Err(at) => self.seek_from_gap(t, at, how),
        }
    }

    /// The row that the cursor is on.
    pub fn row<'a>(&self, t: &'a Tree) -> Option<(&'a [u8], &'a [u8])>
        ensures { option_map (λ p. (p.0.now, p.1.now)) result ≡ row_at t.now.pairs self.now }
    {
        match self.place {
            Some(at) => t.pair_at(at),
            None => None,
        }
    }

    // From the place of the key itself.
    fn seek_from_key(&mut self, t: &Tree, at: usize, how: How) -> bool
        ensures place { self.new ≡ within t.now.pairs (from_key how at) }
        ensures on_row { result ≡ is_some self.new }
    {
        match how {
            How::Ge => self.move_to(t, at),
            How::Gt => self.move_behind(t, at),
            How::Le => self.move_to(t, at),
            How::Lt => self.move_in_front(t, at),
        }
    }

    // From the place at which the key would stand.
    fn seek_from_gap(&mut self, t: &Tree, at: usize, how: How) -> bool
        ensures place { self.new ≡ within t.now.pairs (from_gap how at) }
        ensures on_row { result ≡ is_some self.new }
    {
        match how {
            How::Ge => self.move_to(t, at),
            How::Gt => self.move_to(t, at),
            How::Le => self.move_in_front(t, at),
            How::Lt => self.move_in_front(t, at),
        }
    }

    fn move_behind(&mut self, t: &Tree, at: usize) -> bool
        ensures place { self.new ≡ within t.now.pairs (Some (at + 1)) }
        ensures on_row { result ≡ is_some self.new }
    {
        if at < t.len() {
            self.move_to(t, at + 1)
        } else {
            self.leave()
        }
    }

    #[tactic(auto, using(crate::proofs::PlaceLaws::in_front_above, crate::proofs::PlaceLaws::in_front_none))]
    fn move_in_front(&mut self, t: &Tree, at: usize) -> bool
        ensures place { self.new ≡ within t.now.pairs (in_front at) }
        ensures on_row { result ≡ is_some self.new }
    {
        if at > 0 {
            self.move_to(t, at - 1)
        } else {
            self.leave()
        }
    }

    // To a place, if there is a pair in it.
    fn move_to(&mut self, t: &Tree, at: usize) -> bool
        ensures place { self.new ≡ within t.now.pairs (Some at) }
        ensures on_row { result ≡ is_some self.new }
    {
        if at < t.len() {
            self.place = Some(at);
            true
        } else {
            self.leave()
        }
    }

    fn leave(&mut self) -> bool
        ensures place { self.new ≡ None }
        ensures on_row { result ≡ false }
    {
        self.place = None;
        false
    }
}
