//! The operators of SQL on what their operands came to: values, or the causes why they are bad.
//!
//! An operand is an `Out`, and so is a result. An operator is bad where an operand is, with the causes of all of them, but for AND
//! and OR, where one operand can decide alone, and for a choice, where the condition does. What each operator gives stands in
//! eng_value's definitions (Operators, Truths, Comparisons), and each function here has that as its one clause. Only memory can
//! fail, and a text that an operator only reads is not copied. `applying` calls an operator by what it is told apart by, and
//! `plain` answers in its place, without memory, exactly where the operator looks at two integers or two texts as they are and an
//! integer comes of it. Begin with `numbers`; eng_value's `OperandText` says how a text is read.
#![tactic(auto)]

mod applying;
mod bits;
mod comparing;
mod escapes;
mod joining;
mod matching;
mod numbers;
mod plain;
mod truths;

pub use applying::{binary, unary};
pub use bits::{integers, inverse};
pub use comparing::{comparison, is};
pub use joining::concatenation;
pub use matching::{glob, like, like_escaped};
pub use numbers::{arithmetic, negative};
pub use plain::{binary_of_integers, binary_of_texts};
pub use truths::{and, choice, not, or, truth_is};
