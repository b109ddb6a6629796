// Which access is taken.
ghost use Rattle.std.specs.Prelude.{◌≡◌, ◌<◌, ℕ, List, IfOk, length, true, slice_get, Some};
ghost use Rattle.std.specs.List.{list_any};
ghost use Rattle.bound_tree.specs.Exprs.{BoundExpr};
ghost use Rattle.eng_index.specs.declared.key_term.KeyTerm.{KeyTerm as Term};
ghost use Rattle.eng_value.specs.declared.value.Value.{Value as MeantValue};
ghost use Rattle.plan_best.specs.Comparing.{is_begun, is_searchable};
ghost use Rattle.plan_best.specs.Drafts.{BestOf, BestUnless, HasNoSearch, IsSearchAt, MayBest, Serves, UnlessSearch};
ghost use Rattle.plan_tree.specs.Visits.{AccessFits};
ghost use Rattle.sql_meaning.specs.Searches.{is_search};

use crate::comparing::{Comparison, comparison_of};
use crate::counts::Counts;
use crate::drafting::Draft;
use crate::estimating::{is_by_rowid, rows_found};
use eng_index::{KeyTerm, TermSource};
use eng_value::{Built, Value};
use plan_tree::{Access, Conjunct, Order, Path};
use sqlite_items::Items;
use std::alloc::{AllocError, Global};

/// The one term by which rows are kept.
const ROWID: KeyTerm = KeyTerm {
    source: TermSource::Rowid,
    collation: Built::Binary,
    descending: false,
};

/// The access of the rows of the item in a place of a FROM, whose table has these indexes, where the conjuncts are to be true and the
/// parameters are these (SQLite Query Optimizer Overview, section 2). Keys read the items around it, and none of its own rows. Which of the
/// searches it takes is free; where the item is the first one and one of the conjuncts is a search by `=`, it is one that such a conjunct
/// begins. Only memory can fail.
pub fn access<'a, C: Counts>(
    alloc: Global,
    item: u32,
    indexes: &[Items<KeyTerm>],
    conjuncts: &[Conjunct<'a>],
    params: &[Value],
    counts: &C,
) -> Result<Access<'a>, AllocError>
    ensures fits { IfOk result (λ a. AccessFits params.now item indexes.now conjuncts.now a) }
{
    if item == 0 {
        match best_search(alloc, indexes, conjuncts, params, counts)? {
            Some(draft) => Ok(of_draft(draft)),
            None => best_other(alloc, item, indexes, conjuncts, params, counts),
        }
    } else {
        best_other(alloc, item, indexes, conjuncts, params, counts)
    }
}

/// The access by a search.
fn of_draft(draft: Draft) -> Access
    ensures { (params : List MeantValue) (item : ℕ) (indexes : List (List Term)) (conjuncts : List BoundExpr) → Serves params item indexes conjuncts draft.entry → AccessFits params item indexes conjuncts result }
{
    Access {
        path: Path::Search(draft.search),
        order: Order::Rowid,
        consumed: draft.consumed,
    }
}

/// All rows.
fn scan<'a>(alloc: Global) -> Access<'a>
    ensures { (params : List MeantValue) (item : ℕ) (indexes : List (List Term)) (conjuncts : List BoundExpr) → UnlessSearch params item indexes conjuncts → AccessFits params item indexes conjuncts result }
{
    Access {
        path: Path::Scan,
        order: Order::Rowid,
        consumed: Items::new(alloc),
    }
}

/// The best search of the first item that a search by `=` among the conjuncts begins; none where no conjunct is one.
fn best_search<'a, C: Counts>(
    alloc: Global,
    indexes: &[Items<KeyTerm>],
    conjuncts: &[Conjunct<'a>],
    params: &[Value],
    counts: &C,
) -> Result<Option<Draft<'a>>, AllocError>
    ensures { IfOk result (λ best. BestOf params.now indexes.now conjuncts.now conjuncts.now best) }
{
    let mut best = None;
    for place in 0..conjuncts.len() {
        best = begun_by(alloc, indexes, conjuncts, params, place, best, counts)?;
    }
    Ok(best)
}

/// The best of the one so far and the searches that the conjunct in this place begins.
fn begun_by<'a, C: Counts>(
    alloc: Global,
    indexes: &[Items<KeyTerm>],
    conjuncts: &[Conjunct<'a>],
    params: &[Value],
    place: usize,
    best: Option<Draft<'a>>,
    counts: &C,
) -> Result<Option<Draft<'a>>, AllocError>
    requires place { place < length conjuncts.now }
    requires best { MayBest params.now 0 indexes.now conjuncts.now best }
    ensures { IfOk result (λ best_now. (e : BoundExpr) → slice_get conjuncts.now place ≡ Some e → BestUnless params.now indexes.now conjuncts.now (is_search indexes.now params.now e) best.entry best_now) }
{
    let Some(comparison) = comparison_of(&conjuncts[place], 0, params) else {
        return Ok(best);
    };
    if !comparison.is_equal_search() {
        return Ok(best);
    }
    match comparison.source {
        TermSource::Rowid => {
            let terms = [ROWID];
            let draft = begun_on(alloc, &terms, conjuncts, params, place, &comparison)?;
            Ok(Some(better(alloc, best, draft, 0, params, counts)?))
        }
        TermSource::Column(_) => {
            begun_on_any(
                alloc,
                indexes,
                conjuncts,
                params,
                place,
                &comparison,
                best,
                counts,
            )
        }
    }
}

/// The best of the one so far and the searches of indexes that the comparison in this place begins.
fn begun_on_any<'a, C: Counts>(
    alloc: Global,
    indexes: &[Items<KeyTerm>],
    conjuncts: &[Conjunct<'a>],
    params: &[Value],
    place: usize,
    comparison: &Comparison<'a>,
    best: Option<Draft<'a>>,
    counts: &C,
) -> Result<Option<Draft<'a>>, AllocError>
    requires search { IsSearchAt params.now conjuncts.now place comparison.now }
    requires best { MayBest params.now 0 indexes.now conjuncts.now best }
    ensures { IfOk result (λ best_now. BestUnless params.now indexes.now conjuncts.now (list_any (is_begun comparison.now) indexes.now) best.entry best_now) }
{
    let mut best = best;
    for terms in indexes {
        let terms = terms.as_slice();
        if comparison.begins(terms) {
            let draft = begun_on(alloc, terms, conjuncts, params, place, comparison)?;
            best = Some(better(alloc, best, draft, 0, params, counts)?);
        }
    }
    Ok(best)
}

/// The search by these terms that the comparison in this place begins.
fn begun_on<'a>(
    alloc: Global,
    terms: &[KeyTerm],
    conjuncts: &[Conjunct<'a>],
    params: &[Value],
    place: usize,
    comparison: &Comparison<'a>,
) -> Result<Draft<'a>, AllocError>
    requires search { IsSearchAt params.now conjuncts.now place comparison.now }
    requires begun { is_begun comparison.now terms.now ≡ true }
    ensures { IfOk result (λ d. (indexes : List (List Term)) → is_searchable indexes comparison.now.collation comparison.now.source ≡ true → Serves params.now 0 indexes conjuncts.now d) }
{
    let mut draft = Draft::new(alloc, terms, conjuncts.len())?;
    draft.add_key(place, comparison)?;
    draft.extend(conjuncts, 0, params)?;
    Ok(draft)
}

/// The best access of an item, unless it is the first one and a conjunct is a search by `=`.
fn best_other<'a, C: Counts>(
    alloc: Global,
    item: u32,
    indexes: &[Items<KeyTerm>],
    conjuncts: &[Conjunct<'a>],
    params: &[Value],
    counts: &C,
) -> Result<Access<'a>, AllocError>
    requires { UnlessSearch params.now item indexes.now conjuncts.now }
    ensures { IfOk result (λ a. AccessFits params.now item indexes.now conjuncts.now a) }
{
    let rowid = [ROWID];
    let mut best = with_terms(
        alloc, &rowid, item, indexes, conjuncts, params, None, counts,
    )?;
    for terms in indexes {
        best = with_terms(
            alloc,
            terms.as_slice(),
            item,
            indexes,
            conjuncts,
            params,
            best,
            counts,
        )?;
    }
    let found = or_by_column(alloc, item, indexes, conjuncts, params, best, counts)?;
    match found {
        Some(draft) => Ok(of_draft(draft)),
        None => Ok(scan(alloc)),
    }
}

/// The best search, or where there is none that by a column.
fn or_by_column<'a, C: Counts>(
    alloc: Global,
    item: u32,
    indexes: &[Items<KeyTerm>],
    conjuncts: &[Conjunct<'a>],
    params: &[Value],
    best: Option<Draft<'a>>,
    counts: &C,
) -> Result<Option<Draft<'a>>, AllocError>
    requires none { UnlessSearch params.now item indexes.now conjuncts.now }
    requires best { MayBest params.now item indexes.now conjuncts.now best }
    ensures { IfOk result (λ found. MayBest params.now item indexes.now conjuncts.now found) }
{
    match best {
        Some(draft) => Ok(Some(draft)),
        None => by_column(alloc, item, indexes, conjuncts, params, counts),
    }
}

/// The search by a column that no index begins with and that is to be equal to a key, of an item that has others in front of it: its table
/// is searched once for each row of those, and gets an index of that column at the first search (SQLite Query Optimizer Overview, section 11).
fn by_column<'a, C: Counts>(
    alloc: Global,
    item: u32,
    indexes: &[Items<KeyTerm>],
    conjuncts: &[Conjunct<'a>],
    params: &[Value],
    counts: &C,
) -> Result<Option<Draft<'a>>, AllocError>
    requires { UnlessSearch params.now item indexes.now conjuncts.now }
    ensures { IfOk result (λ best. MayBest params.now item indexes.now conjuncts.now best) }
{
    match first_column(conjuncts, item, params) {
        Some(term) => with_terms(
            alloc,
            &[term],
            item,
            indexes,
            conjuncts,
            params,
            None,
            counts,
        ),
        None => Ok(None),
    }
}

/// The term of the first column that a conjunct wants to be equal to a key; none of the first item, whose rows are looked at once.
fn first_column(conjuncts: &[Conjunct], item: u32, params: &[Value]) -> Option<KeyTerm> {
    if item == 0 {
        return None;
    }
    for conjunct in conjuncts {
        if let Some(comparison) = comparison_of(conjunct, item, params) {
            if let Some(term) = comparison.column_term() {
                return Some(term);
            }
        }
    }
    None
}

/// The best of the one so far and the search by these terms, if it has a key.
fn with_terms<'a, C: Counts>(
    alloc: Global,
    terms: &[KeyTerm],
    item: u32,
    indexes: &[Items<KeyTerm>],
    conjuncts: &[Conjunct<'a>],
    params: &[Value],
    best: Option<Draft<'a>>,
    counts: &C,
) -> Result<Option<Draft<'a>>, AllocError>
    requires none { UnlessSearch params.now item indexes.now conjuncts.now }
    requires best { MayBest params.now item indexes.now conjuncts.now best }
    ensures { IfOk result (λ best. MayBest params.now item indexes.now conjuncts.now best) }
{
    let mut draft = Draft::new(alloc, terms, conjuncts.len())?;
    draft.extend(conjuncts, item, params)?;
    if draft.search.keys.is_empty() {
        return Ok(best);
    }
    Ok(Some(better(alloc, best, draft, item, params, counts)?))
}

/// The better one of two searches.
fn better<'a, C: Counts>(
    alloc: Global,
    best: Option<Draft<'a>>,
    other: Draft<'a>,
    item: u32,
    params: &[Value],
    counts: &C,
) -> Result<Draft<'a>, AllocError>
    ensures { IfOk result (λ d. (of : List MeantValue) (at : ℕ) (indexes : List (List Term)) (conjuncts : List BoundExpr) → MayBest of at indexes conjuncts best.entry → Serves of at indexes conjuncts other.entry → Serves of at indexes conjuncts d) }
{
    let Some(best) = best else {
        return Ok(other);
    };
    if is_better(alloc, &other, &best, item, params, counts)? {
        Ok(other)
    } else {
        Ok(best)
    }
}

/// Whether the first search finds fewer rows than the second, or, as far as that isn't known, seems to.
fn is_better<C: Counts>(
    alloc: Global,
    draft: &Draft,
    than: &Draft,
    item: u32,
    params: &[Value],
    counts: &C,
) -> Result<bool, AllocError> {
    let found = rows_found(alloc, item, &draft.search, params, counts)?;
    let than_found = rows_found(alloc, item, &than.search, params, counts)?;
    match (found, than_found) {
        (Some(found), Some(than_found)) if found != than_found => Ok(found < than_found),
        _ => Ok(rank(draft) > rank(than)),
    }
}

/// The rowid is the best to be equal, and the better of two limits; else the more equal keys, and then the more limits.
fn rank(draft: &Draft) -> (bool, u32, usize, bool) {
    let by_rowid = is_by_rowid(&draft.search);
    let equal = draft.search.bounds.equal;
    (
        by_rowid && equal > 0,
        equal,
        draft.search.keys.len(),
        by_rowid,
    )
}
