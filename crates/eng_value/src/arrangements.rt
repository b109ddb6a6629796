// What arranged lists promise whoever arranges. Nothing here runs: each contract is a law.
ghost use Rattle.std.specs.Prelude.{◌≡◌, Bool, List, length};
ghost use Rattle.std.specs.Cmp.{IsStrictWeakOrder};
ghost use Rattle.std.specs.List.{count_by, filter};
ghost use Rattle.std.specs.List.Sorted.{IsPermutation, IsSortedBy, IsStableBy};
ghost use Rattle.eng_value.specs.Arrangements.{arranged, Ascends, IsArranged, Shuffled};

/// Lists of which one is the other shuffled hold the same elements, each as often, in std's word too.
pub fn shuffled_lists_hold_the_same<T>()
    ensures count { (p : T → Bool) (xs ys : List T) → Shuffled xs ys → count_by p xs ≡ count_by p ys }
    ensures len { (xs ys : List T) → Shuffled xs ys → length xs ≡ length ys }
    ensures permutation { (xs ys : List T) → Shuffled xs ys → IsPermutation xs ys }
{}

/// Arranging moves elements alone, so that none comes before one in front of it and those that tie stay as they stood; no other list
/// is so. A part of what is arranged is that part arranged, and what is in order stays. A list in which each comes before those
/// behind it is what its elements are arranged to, however they stood.
pub fn arranging_is_stable<T>()
    ensures elements { (before : T → T → Bool) (xs : List T) → Shuffled xs (arranged before xs) }
    ensures order { (before : T → T → Bool) → IsStrictWeakOrder before → (xs : List T) → IsArranged before (arranged before xs) }
    ensures stable { (before : T → T → Bool) → IsStrictWeakOrder before → (xs : List T) → IsStableBy before xs (arranged before xs) }
    ensures only { (before : T → T → Bool) → IsStrictWeakOrder before
        → (xs ys : List T) → IsArranged before ys → IsStableBy before xs ys → ys ≡ arranged before xs }
    ensures part { (before : T → T → Bool) → IsStrictWeakOrder before
        → (p : T → Bool) (xs : List T) → filter p (arranged before xs) ≡ arranged before (filter p xs) }
    ensures stays { (before : T → T → Bool) (xs : List T) → IsArranged before xs → arranged before xs ≡ xs }
    ensures ascending { (before : T → T → Bool) → IsStrictWeakOrder before
        → (xs ys : List T) → Shuffled xs ys → Ascends before ys → arranged before xs ≡ ys }
{}

/// What a stable sort of std ensures of a list is that it is arranged.
pub fn stable_sorts_arrange<T>()
    ensures { (before : T → T → Bool) → IsStrictWeakOrder before
        → (xs ys : List T) → IsSortedBy before ys → IsStableBy before xs ys → ys ≡ arranged before xs }
{}
