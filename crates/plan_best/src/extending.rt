// How a search comes to its keys.
ghost use Rattle.std.specs.Prelude.{◌≡◌, ◌<◌, true, slice_get, IfOk, OnOk, Some};
ghost use Rattle.plan_best.specs.Drafts.{HasAdded, IsNext, KeepsServing, MayFind, MayFit, MayGoOn};
ghost use Rattle.plan_best.specs.declared.comparing.Wanted.TheVariants as wants;

use crate::comparing::{Comparison, Wanted, comparison_of};
use crate::drafting::Draft;
use eng_index::KeyTerm;
use eng_value::Value;
use plan_tree::Conjunct;
use std::alloc::AllocError;

/// How many terms of a key a search goes by at most.
const MOST_TERMS: usize = 2_000;

/// The conjunct's comparison, if it is one of this term that is wanted so, and its key is given or not as asked.
fn fitting<'a>(
    conjunct: &Conjunct<'a>,
    item: u32,
    params: &[Value],
    term: &KeyTerm,
    wanted: Wanted,
    given: bool,
) -> Option<Comparison<'a>>
    ensures { MayFit params.now item conjunct.now term.now wanted given result }
{
    let comparison = comparison_of(conjunct, item, params)?;
    if comparison.is_of_term(term) && comparison.is_wanted(wanted) && comparison.given == given {
        Some(comparison)
    } else {
        None
    }
}

/// The first of the conjuncts that are not consumed which has such a comparison, and its place.
fn find<'a>(
    conjuncts: &[Conjunct<'a>],
    item: u32,
    params: &[Value],
    consumed: &[bool],
    term: &KeyTerm,
    wanted: Wanted,
    given: bool,
) -> Option<(usize, Comparison<'a>)>
    ensures { MayFind params.now item conjuncts.now consumed.now term.now wanted given result }
{
    for (place, conjunct) in conjuncts.iter().enumerate() {
        if matches!(consumed.get(place), Some(false)) {
            if let Some(comparison) = fitting(conjunct, item, params, term, wanted, given) {
                return Some((place, comparison));
            }
        }
    }
    None
}

impl<'a> Draft<'a> {
    /// Adds keys for as many terms as it can: given ones that are equal, and then one that may be bad, or limits of the next term.
    pub(crate) fn extend(
        &mut self,
        conjuncts: &[Conjunct<'a>],
        item: u32,
        params: &[Value],
    ) -> Result<(), AllocError>
        requires goes_on { MayGoOn params.now item conjuncts.now self.old }
        requires next { IsNext wants.Equal self.old.search.bounds }
        ensures { OnOk result (KeepsServing params.now item conjuncts.now self.old self.new) }
    {
        let first = self.search.bounds.equal as usize;
        for i in first..self.search.terms.len().min(MOST_TERMS) {
            let term = self.search.terms.as_slice()[i];
            if !self.add(conjuncts, item, params, &term, Wanted::Equal, true)? {
                return self.end(conjuncts, item, params, &term);
            }
        }
        Ok(())
    }

    /// Adds what is the last for a search: a key that may be bad, or limits.
    fn end(
        &mut self,
        conjuncts: &[Conjunct<'a>],
        item: u32,
        params: &[Value],
        term: &KeyTerm,
    ) -> Result<(), AllocError>
        requires goes_on { MayGoOn params.now item conjuncts.now self.old }
        requires term { slice_get self.old.search.terms self.old.search.bounds.equal ≡ Some term.now }
        requires next { IsNext wants.Equal self.old.search.bounds }
        requires room { self.old.search.bounds.equal < 2000 }
        ensures { OnOk result (KeepsServing params.now item conjuncts.now self.old self.new) }
    {
        if self.add(conjuncts, item, params, term, Wanted::Equal, false)? {
            return Ok(());
        }
        let lower = self.add(conjuncts, item, params, term, Wanted::Lower, true)?;
        let upper = self.add(conjuncts, item, params, term, Wanted::Upper, true)?;
        if lower || upper {
            return Ok(());
        }
        self.end_by_limit(conjuncts, item, params, term)
    }

    /// Adds one limit that may be bad.
    fn end_by_limit(
        &mut self,
        conjuncts: &[Conjunct<'a>],
        item: u32,
        params: &[Value],
        term: &KeyTerm,
    ) -> Result<(), AllocError>
        requires goes_on { MayGoOn params.now item conjuncts.now self.old }
        requires term { slice_get self.old.search.terms self.old.search.bounds.equal ≡ Some term.now }
        requires next { IsNext wants.Equal self.old.search.bounds }
        requires room { self.old.search.bounds.equal < 2000 }
        ensures { OnOk result (KeepsServing params.now item conjuncts.now self.old self.new) }
    {
        if self.add(conjuncts, item, params, term, Wanted::Lower, false)? {
            return Ok(());
        }
        self.add(conjuncts, item, params, term, Wanted::Upper, false)?;
        Ok(())
    }

    /// Adds the key of a comparison of this term that is wanted so, where there is one, and says whether there was. Behind one that is not
    /// given none may follow.
    fn add(
        &mut self,
        conjuncts: &[Conjunct<'a>],
        item: u32,
        params: &[Value],
        term: &KeyTerm,
        wanted: Wanted,
        given: bool,
    ) -> Result<bool, AllocError>
        requires goes_on { MayGoOn params.now item conjuncts.now self.old }
        requires term { slice_get self.old.search.terms self.old.search.bounds.equal ≡ Some term.now }
        requires next { IsNext wanted self.old.search.bounds }
        requires room { self.old.search.bounds.equal < 2000 }
        ensures serves { OnOk result (KeepsServing params.now item conjuncts.now self.old self.new) }
        ensures goes_on { OnOk result (given ≡ true → MayGoOn params.now item conjuncts.now self.new) }
        ensures added { IfOk result (λ added. HasAdded added wanted self.old self.new) }
    {
        match find(
            conjuncts,
            item,
            params,
            self.consumed.as_slice(),
            term,
            wanted,
            given,
        ) {
            None => Ok(false),
            Some((place, comparison)) => {
                self.add_key(place, &comparison)?;
                Ok(true)
            }
        }
    }
}
