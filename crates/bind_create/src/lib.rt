//! CREATE with its names bound: the name comes first, then what is defined, from left to right (CREATE TABLE; CREATE INDEX; CREATE VIEW;
//! CREATE TRIGGER; CREATE VIRTUAL TABLE).
//!
//! `bind_create` is the whole: it is equal to `create_bound` of sql_bound's specs/Creates.antt. A view's query, WHEN and the body of a
//! trigger are bound where they are used.
#![tactic(auto)]

mod columns;
mod creates;
mod levels;
mod tables;
mod triggers;

pub use creates::bind_create;
