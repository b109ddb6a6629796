// What patterns and replacements promise whoever uses them. Nothing here runs: each contract is a law.
ghost use Rattle.std.specs.Prelude.{◌≡◌, ◌<◌, ◌==◌, ℕ, List, [], ◌∷◌, length, not, Option, Some, true, false};
ghost use Rattle.std.specs.List.{list_any};
ghost use Rattle.eng_text.specs.Patterns.{AreWritable, in_range, other_set_of, set_of, is_escape, is_glob, is_like, escaped, glob_escaped, backslash, percent};
ghost use Rattle.eng_text.specs.Pieces.{AreBetween, IsFirstPlace, joined};
ghost use Rattle.eng_text.specs.Texts.{folded, place_of, replaced};

/// Each text matches itself, with `\` put in front of each `%`, `_` and `\` of it, in LIKE with `\` as the escape.
#[tactic(auto, using(crate::proofs::EscapeLaws::escaped_matches))]
pub fn escaped_matches_itself()
    ensures { (text : List ℕ) → is_like (Some backslash) (escaped text) text ≡ true }
{}

/// A text so escaped matches the texts that differ from it in the case of letters of ASCII at most, and no others.
#[tactic(auto, using(crate::proofs::EscapeLaws::escaped_matches_each, crate::proofs::EscapeLaws::escaped_matches_only))]
pub fn escaped_matches_but_for_case()
    ensures each { (text other : List ℕ) → folded other ≡ folded text → is_like (Some backslash) (escaped text) other ≡ true }
    ensures only { (text other : List ℕ) → is_like (Some backslash) (escaped text) other ≡ true → folded other ≡ folded text }
{}

/// Each text matches itself in GLOB, with each `*`, `?` and `[` of it as a set of its own; and no other text does.
#[tactic(auto, using(crate::proofs::EscapeLaws::glob_escaped_matches, crate::proofs::EscapeLaws::glob_escaped_matches_only))]
pub fn glob_escaped_matches_itself()
    ensures itself { (text : List ℕ) → is_glob (glob_escaped text) text ≡ true }
    ensures only { (text other : List ℕ) → is_glob (glob_escaped text) other ≡ true → other ≡ text }
{}

/// A set of GLOB that is written of ranges matches the characters of its ranges and no others, and with `^` in front of them exactly
/// the others. It matches no text but of one character. A first range begins with no `^`, unless one stands in front.
#[tactic(auto, using(crate::proofs::RangeLaws::set_matches, crate::proofs::RangeLaws::other_set_matches, crate::proofs::RangeLaws::set_is_one, crate::proofs::RangeLaws::other_set_is_one))]
pub fn sets_match_their_ranges()
    ensures characters { (r : ℕ × ℕ) (ranges : List (ℕ × ℕ)) (c : ℕ) → AreWritable (r ∷ ranges) → (r.0 == 0x5e) ≡ false
        → is_glob (set_of (r ∷ ranges)) (c ∷ []) ≡ list_any (in_range c) (r ∷ ranges) }
    ensures others { (r : ℕ × ℕ) (ranges : List (ℕ × ℕ)) (c : ℕ) → AreWritable (r ∷ ranges)
        → is_glob (other_set_of (r ∷ ranges)) (c ∷ []) ≡ not (list_any (in_range c) (r ∷ ranges)) }
    ensures one { (r : ℕ × ℕ) (ranges : List (ℕ × ℕ)) (text : List ℕ) → AreWritable (r ∷ ranges) → (r.0 == 0x5e) ≡ false
        → is_glob (set_of (r ∷ ranges)) text ≡ true → length text ≡ 1 }
    ensures one_other { (r : ℕ × ℕ) (ranges : List (ℕ × ℕ)) (text : List ℕ) → AreWritable (r ∷ ranges)
        → is_glob (other_set_of (r ∷ ranges)) text ≡ true → length text ≡ 1 }
{}

/// `%` matches each text in LIKE, where it is not the escape.
#[tactic(auto, using(crate::proofs::LikeLaws::percent_matches))]
pub fn percent_matches_all()
    ensures { (escape : Option ℕ) (text : List ℕ) → is_escape escape percent ≡ false → is_like escape (percent ∷ []) text ≡ true }
{}

/// The place that is found is the first: the needle stands there with that many bytes in front of it, and nowhere with fewer; and
/// where none is found, it stands nowhere.
#[tactic(auto, using(crate::proofs::PieceLaws::first_place))]
pub fn place_is_first()
    ensures { (needle text : List ℕ) → IsFirstPlace needle text (place_of needle text) }
{}

/// A text is cut at each `old` from the left, in one way, and the replacement is its pieces joined with `new`.
#[tactic(auto, using(crate::proofs::PieceLaws::cut, crate::proofs::PieceLaws::one_cut, crate::proofs::PieceLaws::replaced_joined))]
pub fn replaced_by_pieces()
    ensures pieces { (old text : List ℕ) → 0 < length old → (pieces : List (List ℕ)) × AreBetween old pieces × (text ≡ joined old pieces) }
    ensures no_others { (old : List ℕ) (pieces others : List (List ℕ)) → AreBetween old pieces → AreBetween old others → joined old pieces ≡ joined old others → pieces ≡ others }
    ensures anew { (old new : List ℕ) (pieces : List (List ℕ)) → AreBetween old pieces → replaced old new (joined old pieces) ≡ joined new pieces }
{}
