//! The engine behind `Connection`. The text of a statement becomes tokens (sql_lex), a tree (parse_stmt) and a bound statement
//! (bind_stmt), all in `preparing`; then a program (gen_query, gen_write), which the machine runs (`running`), with its rows to the
//! sink and its changes in the tables; what it came to becomes the answer (`executing`, `database`, `connection`).
#![tactic(auto)]

mod answers;
mod connection;
mod database;
mod display;
mod executing;
mod explaining;
mod kept_rows;
mod labels;
mod planning;
mod preparing;
mod row_sink;
mod running;
mod schema;
mod uncounted;
mod unkept_rows;

pub use answers::{Done, Refusal};
pub use connection::Connection;
pub use kept_rows::KeptRows;
pub use planning::JoinOrder;
pub use row_sink::{RowSink, Took};
pub use vm_core::Hosts;
