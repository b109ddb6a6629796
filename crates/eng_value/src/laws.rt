// What the functions of values and the collations promise whoever uses them. Nothing here runs: each contract is a law.
ghost use Rattle.std.specs.Prelude.{◌≡◌, ◌≢◌, ◌<◌, ◌==◌, ◌+◌, ◌-◌, ℕ, suc, List, ◌∷◌, [], ◌++◌, length, map, take, drop, pos, negsuc, None, Some, true, false};
ghost use Rattle.std.specs.Char.{to_ascii_uppercase};
ghost use Rattle.std.specs.Cmp.{IsTotalOrder};
ghost use Rattle.std.specs.List.{AllByRecursion, list_any};
ghost use Rattle.std.specs.declared.cmp.Ordering.TheVariants.{Equal};
ghost use Rattle.eng_text.specs.Texts.{folded};
ghost use Rattle.eng_value.specs.declared.built.Built.TheVariants.{Binary};
ghost use Rattle.eng_value.specs.declared.collation.Collation.{Collation};
ghost use Rattle.eng_value.specs.declared.out.Out.TheVariants.{Good, Bad};
ghost use Rattle.eng_value.specs.declared.value.Value.{Value};
ghost use Rattle.eng_value.specs.declared.value.Value.TheVariants.{Null};
ghost use Rattle.eng_value.specs.Causes.{CauseSet};
ghost use Rattle.eng_value.specs.Collations.{compare, compare_by, keyed, keys_of};
ghost use Rattle.eng_value.specs.Environments.{ItemRow, bad_row, column_of, ignoring};
ghost use Rattle.eng_value.specs.Functions.{quoted, substr_in, without_back, without_front};
ghost use Rattle.eng_value.specs.HostMeanings.{HostMeanings};
ghost use Rattle.eng_value.specs.Literals.{HasLiteral, literal};

/// The literal that quote() writes of a value means this value, so no two values have one (Built-in Scalar SQL Functions, "quote").
#[tactic(auto, using(crate::proofs::LiteralLaws::literal_quoted, crate::proofs::LiteralLaws::quoted_apart))]
pub fn quote_reads_back()
    ensures back { (v : Value) → HasLiteral v → literal (quoted v) ≡ Some v }
    ensures apart { (v w : Value) → HasLiteral v → HasLiteral w → quoted v ≡ quoted w → v ≡ w }
{}

/// The part from place y + 1 on: without a length it is what stands behind the first y places, with a length so much of that, and
/// with a length below 0 what stands in front. A place below 0 counts from the end. A front and what begins behind it are the whole
/// (Built-in Scalar SQL Functions, "substr").
#[tactic(auto, using(crate::proofs::SubstrLaws::substr_part, crate::proofs::SubstrLaws::substr_rest, crate::proofs::SubstrLaws::substr_before, crate::proofs::SubstrLaws::substr_end, crate::proofs::SubstrLaws::substr_halves))]
pub fn substr_is_a_part()
    ensures rest { (y : ℕ) (xs : List ℕ) → substr_in (pos (y + 1)) None xs ≡ drop y xs }
    ensures front { (y z : ℕ) (xs : List ℕ) → substr_in (pos (y + 1)) (Some (pos z)) xs ≡ take z (drop y xs) }
    ensures before { (y k : ℕ) (xs : List ℕ) → substr_in (pos (y + 1)) (Some (negsuc k)) xs ≡ drop (y - suc k) (take y xs) }
    ensures end { (k : ℕ) (xs : List ℕ) → substr_in (negsuc k) None xs ≡ drop (length xs - suc k) xs }
    ensures halves { (n : ℕ) (xs : List ℕ) → substr_in (pos 1) (Some (pos n)) xs ++ substr_in (pos (n + 1)) None xs ≡ xs }
{}

/// Of several changes of case only the last counts (Built-in Scalar SQL Functions, "lower" and "upper").
#[tactic(auto, using(crate::proofs::CaseLaws::folded_twice, crate::proofs::CaseLaws::folded_upper, crate::proofs::CaseLaws::upper_folded, crate::proofs::CaseLaws::upper_twice))]
pub fn last_case_counts()
    ensures lower { (text : List ℕ) → folded (folded text) ≡ folded text }
    ensures lower_of_upper { (text : List ℕ) → folded (map to_ascii_uppercase text) ≡ folded text }
    ensures upper { (text : List ℕ) → map to_ascii_uppercase (map to_ascii_uppercase text) ≡ map to_ascii_uppercase text }
    ensures upper_of_lower { (text : List ℕ) → map to_ascii_uppercase (folded text) ≡ map to_ascii_uppercase text }
{}

/// Trimming the front takes a front away that is of these characters alone, and no character that is left in front is one of them
/// (Built-in Scalar SQL Functions, "ltrim").
#[tactic(auto, using(crate::proofs::TrimLaws::without_front_splits, crate::proofs::TrimLaws::without_front_ends))]
pub fn front_is_trimmed()
    ensures taken { (these cs : List ℕ) → (front : List ℕ) × AllByRecursion (λ c. list_any (λ t. t == c) these ≡ true) front × (cs ≡ front ++ without_front these cs) }
    ensures left { (these cs : List ℕ) (c : ℕ) (rest : List ℕ) → without_front these cs ≡ c ∷ rest → list_any (λ t. t == c) these ≡ false }
{}

/// Trimming the back takes an end away that is of these characters alone, and no character that is left at the end is one of them
/// (Built-in Scalar SQL Functions, "rtrim").
#[tactic(auto, using(crate::proofs::TrimLaws::without_back_splits, crate::proofs::TrimLaws::without_back_ends))]
pub fn back_is_trimmed()
    ensures taken { (these cs : List ℕ) → (back : List ℕ) × AllByRecursion (λ c. list_any (λ t. t == c) these ≡ true) back × (cs ≡ without_back these cs ++ back) }
    ensures left { (these cs rest : List ℕ) (c : ℕ) → without_back these cs ≡ rest ++ c ∷ [] → list_any (λ t. t == c) these ≡ false }
{}

/// Each collation, of a host too, is a total order: whichever way two values are compared the answer is one, and it holds along chains.
/// Equal are just the values whose keys are one; under BINARY these are one value, which is equal to itself under each collation
/// (Datatypes In SQLite, section 7).
pub fn collations_are_orders()
    ensures order { (hosts : HostMeanings) (collation : Collation) → IsTotalOrder (compare_by (keys_of hosts collation)) }
    ensures keys { (hosts : HostMeanings) (collation : Collation) (a b : Value)
        → compare_by (keys_of hosts collation) a b ≡ Equal → keyed (keys_of hosts collation) a ≡ keyed (keys_of hosts collation) b }
    ensures equal { (hosts : HostMeanings) (collation : Collation) (a b : Value)
        → keyed (keys_of hosts collation) a ≡ keyed (keys_of hosts collation) b → compare_by (keys_of hosts collation) a b ≡ Equal }
    ensures binary { (a b : Value) → compare Binary a b ≡ Equal → a ≡ b }
    ensures others { (hosts : HostMeanings) (collation : Collation) (a b : Value)
        → compare Binary a b ≡ Equal → compare_by (keys_of hosts collation) a b ≡ Equal }
{}

/// A row that could not be made reads bad in each of its columns, for the causes that it carries; a column that is ignored reads NULL,
/// and the others read what they hold.
pub fn rows_read_as_they_are()
    ensures bad { (width place : ℕ) (causes : CauseSet) → place < width → column_of (bad_row width causes) place ≡ Bad causes }
    ensures carried { (width : ℕ) (causes : CauseSet) → (bad_row width causes).causes ≡ Bad causes }
    ensures ignored { (row : ItemRow) (place : ℕ) → column_of (ignoring (Some place ∷ []) row) place ≡ Good Null }
    ensures others { (row : ItemRow) (place other : ℕ) → other ≢ place → column_of (ignoring (Some place ∷ []) row) other ≡ column_of row other }
{}
