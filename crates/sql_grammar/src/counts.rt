// What is counted while tokens are taken.
ghost use Rattle.std.specs.Prelude.{◌≡◌};
ghost use Rattle.sql_grammar.specs.Marks as spec;

/// The most brackets and CASEs that may be open at one place of a statement.
pub const MAX_NESTINGS: usize = 100;

/// The most operators of an outermost expression with its queries.
pub const MAX_OPERATORS: usize = 1000;

/// The most parts of a compound query.
pub const MAX_PARTS: u16 = 500;

/// What there may not be too much of.
#[derive(Clone, Copy, PartialEq, Eq)]
pub enum Limit {
    Nestings,
    Operators,
    Parts,
}

/// What a token counts as where it stands in a rule.
#[derive(Clone, Copy, PartialEq, Eq)]
pub enum Role {
    /// Nothing is counted.
    Quiet,
    /// The first token of an operator.
    Operator,
    /// Stands in no expression, unless in one of its brackets.
    Outside,
    /// As that, and no query goes on after it.
    Fresh,
    /// The first token of a part of a query.
    Part,
    /// Opens a bracket of an expression.
    Inward,
    /// Closes one.
    Outward,
    /// Opens another bracket.
    Opening,
    /// Closes one.
    Closing,
}

/// The counts in front of a token. A limit is passed where one of them would rise above it.
#[derive(Clone, Copy)]
pub struct Counts {
    /// Operators so far in the outermost expression.
    pub operators: usize,
    /// Brackets of expressions that are open.
    pub within: usize,
    /// Brackets that are open.
    pub depth: usize,
    /// Parts so far of the query that stands directly in each open bracket.
    pub parts: [u16; MAX_NESTINGS + 1],
}

impl Counts {
    /// In front of the first token of a statement.
    pub fn start() -> Counts
        ensures { result ≡ spec.start }
    {
        Counts {
            operators: 0,
            within: 0,
            depth: 0,
            parts: [0; MAX_NESTINGS + 1],
        }
    }
}

/// The counts behind a token of this role, or the limit that it passes.
#[tactic(auto, unfolding(crate::specs::Marks::count))]
pub fn count(role: Role, counts: Counts) -> Result<Counts, Limit>
    ensures { result ≡ spec.count role counts }
{
    match role {
        Role::Quiet => Ok(counts),
        Role::Operator => operator(counts),
        Role::Outside => Ok(outside(counts)),
        Role::Fresh => Ok(fresh(outside(counts))),
        Role::Part => part(outside(counts)),
        Role::Inward => inward(counts),
        Role::Outward => Ok(outward(counts)),
        Role::Opening => opening(outside(counts)),
        Role::Closing => Ok(closing(outside(counts))),
    }
}

fn operator(counts: Counts) -> Result<Counts, Limit>
    ensures { result ≡ spec.operator counts }
{
    if counts.operators < MAX_OPERATORS {
        Ok(Counts {
            operators: counts.operators + 1,
            ..counts
        })
    } else {
        Err(Limit::Operators)
    }
}

// Outside of all expressions the next one begins anew.
fn outside(counts: Counts) -> Counts
    ensures { result ≡ spec.outside counts }
{
    if counts.within == 0 {
        Counts {
            operators: 0,
            ..counts
        }
    } else {
        counts
    }
}

// The query that stands directly in the innermost bracket begins anew.
fn fresh(counts: Counts) -> Counts
    ensures { result ≡ spec.fresh counts }
{
    let mut parts = counts.parts;
    if counts.depth < MAX_NESTINGS + 1 {
        parts[counts.depth] = 0;
    }
    Counts { parts, ..counts }
}

fn part(counts: Counts) -> Result<Counts, Limit>
    ensures { result ≡ spec.part counts }
{
    if counts.depth < MAX_NESTINGS + 1 && counts.parts[counts.depth] < MAX_PARTS {
        let mut parts = counts.parts;
        parts[counts.depth] = counts.parts[counts.depth] + 1;
        Ok(Counts { parts, ..counts })
    } else {
        Err(Limit::Parts)
    }
}

fn opening(counts: Counts) -> Result<Counts, Limit>
    ensures { result ≡ spec.opening counts }
{
    if counts.depth < MAX_NESTINGS {
        Ok(fresh(Counts {
            depth: counts.depth + 1,
            ..counts
        }))
    } else {
        Err(Limit::Nestings)
    }
}

fn inward(counts: Counts) -> Result<Counts, Limit>
    ensures { result ≡ spec.inward counts }
{
    if counts.within < MAX_NESTINGS {
        opening(Counts {
            within: counts.within + 1,
            ..counts
        })
    } else {
        Err(Limit::Nestings)
    }
}

fn closing(counts: Counts) -> Counts
    ensures { result ≡ spec.closing counts }
{
    Counts {
        depth: counts.depth.saturating_sub(1),
        ..counts
    }
}

fn outward(counts: Counts) -> Counts
    ensures { result ≡ spec.outward counts }
{
    closing(Counts {
        within: counts.within.saturating_sub(1),
        ..counts
    })
}
