// The comparisons.
ghost use Rattle.std.specs.Prelude.{◌≡◌};
ghost use Rattle.eng_value.specs.Outs.{passes};

use std::cmp::Ordering;

/// A comparison of two values (SQL Language Expressions, section 2).
#[derive(Clone, Copy, PartialEq, Eq)]
pub enum CompareOp {
    Eq,
    Lt,
    Le,
    Gt,
    Ge,
}

impl CompareOp {
    /// Whether two values that stand so to one another pass the comparison.
    pub fn passes(self, ordering: Ordering) -> bool
        ensures { result ≡ passes self ordering }
    {
        match self {
            CompareOp::Eq => ordering.is_eq(),
            CompareOp::Lt => ordering.is_lt(),
            CompareOp::Le => ordering.is_le(),
            CompareOp::Gt => ordering.is_gt(),
            CompareOp::Ge => ordering.is_ge(),
        }
    }
}
