// The collations of operands (Datatypes In SQLite, section 7.1).
ghost use Rattle.std.specs.Prelude.{◌≡◌, [], ◌∷◌, unwrap_or};
ghost use Rattle.sql_words.specs.Collations.{by_bytes};
ghost use Rattle.sql_words.specs.Refusals.{or_else};
ghost use Rattle.sql_bound.specs.Operands.{arm_parts, collation_of, collation_of_arguments, collation_of_result, first_collation, first_explicit, option_list, sides_of};

use eng_value::{Built, Collation, Sides};
use sql_bound::{ArmOperands, Operand, ResultColumn};

/// The first collation, or else the second.
pub(crate) fn or_else(first: Option<Collation>, second: Option<Collation>) -> Option<Collation>
    ensures { result ≡ or_else first second }
{
    match first {
        Some(collation) => Some(collation),
        None => second,
    }
}

/// A collation, or else BINARY.
pub(crate) fn or_binary(collation: Option<Collation>) -> Collation
    ensures { result ≡ unwrap_or collation by_bytes }
{
    match collation {
        Some(collation) => collation,
        None => Collation::Built(Built::Binary),
    }
}

/// The collation of an operand: that of its COLLATE, else that of the column that it is.
pub fn collation_of(a: &Operand) -> Option<Collation>
    ensures { result ≡ collation_of a.now }
{
    or_else(a.explicit, a.column)
}

/// The collation by which a query's column is compared, BINARY where it has none.
pub fn collation_of_result(column: &ResultColumn) -> Collation
    ensures { result ≡ collation_of_result column.now }
{
    or_binary(or_else(column.explicit, column.column))
}

/// How two operands are compared: a COLLATE comes before a column's collation, and of each the left side's first.
pub fn sides_of(a: &Operand, b: &Operand) -> Sides
    ensures { result ≡ sides_of a.now b.now }
{
    let explicit = or_else(a.explicit, b.explicit);
    let column = or_else(a.column, b.column);
    Sides {
        left: a.affinity,
        right: b.affinity,
        collation: or_binary(or_else(explicit, column)),
    }
}

/// The collation under which a function compares its arguments.
pub fn collation_of_arguments(arguments: &[Operand]) -> Collation
    ensures { result ≡ collation_of_arguments arguments.now }
{
    or_binary(first_collation(arguments))
}

/// The collation of the first that has one.
fn first_collation(operands: &[Operand]) -> Option<Collation>
    ensures { result ≡ first_collation operands.now }
{
    for a in operands {
        if let Some(collation) = collation_of(a) {
            return Some(collation);
        }
    }
    None
}

/// The collation of the leftmost COLLATE in some operands.
pub(crate) fn first_explicit(operands: &[Operand]) -> Option<Collation>
    ensures { result ≡ first_explicit operands.now }
{
    for a in operands {
        if let Some(collation) = a.explicit {
            return Some(collation);
        }
    }
    None
}

/// The same of one operand.
#[tactic(auto, using(crate::proofs::Explicits::or_elses))]
pub(crate) fn explicit_of(a: &Operand) -> Option<Collation>
    ensures { result ≡ first_explicit (a.now ∷ []) }
{
    a.explicit
}

/// The same of two.
#[tactic(auto, using(crate::proofs::Explicits::or_elses))]
pub(crate) fn explicit_of_two(a: &Operand, b: &Operand) -> Option<Collation>
    ensures { result ≡ first_explicit (a.now ∷ b.now ∷ []) }
{
    or_else(a.explicit, b.explicit)
}

/// The same of three.
pub(crate) fn explicit_of_three(a: &Operand, b: &Operand, c: &Operand) -> Option<Collation>
    ensures { result ≡ first_explicit (a.now ∷ b.now ∷ c.now ∷ []) }
{
    or_else(a.explicit, explicit_of_two(b, c))
}

/// The same of an operand that may be absent.
#[tactic(auto, using(crate::proofs::Explicits::or_elses))]
pub(crate) fn explicit_of_option(a: &Option<Operand>) -> Option<Collation>
    ensures { result ≡ first_explicit (option_list a.now) }
{
    match a {
        Some(a) => a.explicit,
        None => None,
    }
}

/// The same of the arms of a CASE.
#[tactic(auto, using(crate::proofs::Explicits::or_elses))]
pub(crate) fn explicit_of_arms(arms: &[ArmOperands]) -> Option<Collation>
    ensures { result ≡ first_explicit (arm_parts arms.now) }
{
    for arm in arms {
        if let Some(collation) = or_else(arm.condition.explicit, arm.value.explicit) {
            return Some(collation);
        }
    }
    None
}
