//! The built-in functions of SQL (SQL Language Expressions, "Built-in Scalar SQL Functions").
//!
//! `call` is all of it: what a function gives for some arguments is what eng_value's specs/Functions.antt says. `function` is
//! `call` on what the arguments came to, values or causes (specs/Called.antt). Begin with `calling`, which names the body of each
//! function. The bodies stand by subject: `characters`, `choosing`, `extremes`, `numbers`, `parts`, `places`, `replacing`, `spelling` and
//! `trimming`. `arguments` says what an argument is where an integer is wanted, and eng_value's `OperandText` where a text is.
#![tactic(auto)]

mod applying;
mod arguments;
mod calling;
mod characters;
mod choosing;
mod extremes;
mod numbers;
mod parts;
mod places;
mod replacing;
mod spelling;
mod text_ends;
mod trimming;

pub use applying::function;
pub use calling::call;
