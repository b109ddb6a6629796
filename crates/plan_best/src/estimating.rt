// How many rows a search finds, as far as that is known before anything runs.
use crate::counts::Counts;
use bound_tree::ExprTree;
use eng_index::{Bounds, Edge, Limit, Range, TermSource};
use eng_value::{Row, Value, changed_beside};
use plan_tree::{Access, Key, Path, Search};
use sql_words::Literal;
use std::alloc::{AllocError, Global};

/// Of the rows of an index, one in so many is taken to be equal to the first key of it that isn't known.
const FIRST_KEY_KEEPS: usize = 10;

/// And one in so many to what a further key or limit asks for.
const FURTHER_KEY_KEEPS: usize = 4;

/// How many rows an access of the item in a place visits, as far as that can be told before anything runs. No contract speaks of it: it only
/// helps to choose.
pub fn rows_visited<C: Counts>(
    alloc: Global,
    item: u32,
    access: &Access,
    params: &[Value],
    counts: &C,
) -> Result<Option<usize>, AllocError> {
    match &access.path {
        Path::Scan => Ok(all_rows(alloc, item, counts)),
        Path::Search(search) => match rows_found(alloc, item, search, params, counts)? {
            Some(found) => Ok(Some(found)),
            None => match all_rows(alloc, item, counts) {
                Some(rows) => Ok(Some(kept_of(rows, search, 0))),
                None => Ok(None),
            },
        },
    }
}

/// How many rows there are, if that is known.
fn all_rows<C: Counts>(alloc: Global, item: u32, counts: &C) -> Option<usize> {
    let everything = Range {
        equal: Row::new(Vec::new(alloc)),
        lower: None,
        upper: None,
    };
    counts.found(item, &[], &everything)
}

/// How many rows the search finds, if that can be told: by its keys in front of the first that is neither a literal nor a parameter, less
/// what the others are taken to keep from it.
pub(crate) fn rows_found<C: Counts>(
    alloc: Global,
    item: u32,
    search: &Search,
    params: &[Value],
    counts: &C,
) -> Result<Option<usize>, AllocError> {
    let values = known_values(alloc, search.keys.as_slice(), params)?;
    let known = values.len();
    let range = range_of(search.bounds, values)?;
    match counts.found(item, search.terms.as_slice(), &range) {
        Some(found) => Ok(Some(kept_of(found, search, known))),
        None => Ok(None),
    }
}

/// How many of the rows that the first so many keys find the others are taken to keep. A rowid is that of one row.
fn kept_of(found: usize, search: &Search, known: usize) -> usize {
    let keys = search.keys.len();
    if known >= keys {
        found
    } else if search.bounds.equal > 0 && is_by_rowid(search) {
        found.min(1)
    } else if known == 0 && search.bounds.equal > 0 {
        kept_by_further(found / FIRST_KEY_KEEPS, keys - 1)
    } else {
        kept_by_further(found, keys - known)
    }
}

/// How many rows so many further keys and limits are taken to keep.
fn kept_by_further(found: usize, keys: usize) -> usize {
    let mut kept = found;
    for _ in 0..keys {
        kept = kept / FURTHER_KEY_KEEPS;
    }
    kept
}

/// Whether rows are searched by their rowid.
pub(crate) fn is_by_rowid(search: &Search) -> bool {
    match search.terms.get(0) {
        Some(term) => term.source == TermSource::Rowid,
        None => false,
    }
}

/// The values of the keys in front of the first that is neither a literal nor a parameter.
fn known_values(alloc: Global, keys: &[Key], params: &[Value]) -> Result<Vec<Value>, AllocError> {
    let mut values = Vec::new(alloc);
    for key in keys {
        let Some(value) = known_value(key.value, params) else {
            return Ok(values);
        };
        values.push(compared(alloc, key, value)?)?;
    }
    Ok(values)
}

/// The value of a literal or a parameter.
fn known_value<'a>(tree: &'a ExprTree, params: &'a [Value]) -> Option<&'a Value> {
    match tree {
        ExprTree::Literal(Literal::Value(value)) => Some(value),
        ExprTree::Parameter(number) => params.get(number.checked_sub(1)? as usize),
        _ => None,
    }
}

/// What the comparison makes of the value of its key.
fn compared(alloc: Global, key: &Key, value: &Value) -> Result<Value, AllocError> {
    match changed_beside(alloc, key.other, key.own, value)? {
        Some(changed) => Ok(changed),
        None => value.clone(),
    }
}

/// The range that these values are the first bounds of.
fn range_of(bounds: Bounds, mut values: Vec<Value>) -> Result<Range, AllocError> {
    let equal = bounds.equal as usize;
    let upper = if bounds.lower.is_some() {
        equal + 1
    } else {
        equal
    };
    let lower = limit_of(bounds.lower, values.get(equal))?;
    let upper = limit_of(bounds.upper, values.get(upper))?;
    values.truncate(equal);
    Ok(Range {
        equal: Row::new(values),
        lower,
        upper,
    })
}

/// A limit, where it is wanted and has a value.
fn limit_of(edge: Option<Edge>, value: Option<&Value>) -> Result<Option<Limit>, AllocError> {
    match (edge, value) {
        (Some(edge), Some(value)) => Ok(Some(Limit {
            value: value.clone()?,
            edge,
        })),
        _ => Ok(None),
    }
}
