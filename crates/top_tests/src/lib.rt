//! Tests of what no script reaches: the top call over sources and sinks that fail, and with an authorizer; and a connection with
//! parameters, tables and a sink of rows. What scripts reach is shown by tests/cases.
#![tactic(auto)]

#[cfg(test)]
mod authorizer_tables;
#[cfg(test)]
mod authorizers;
#[cfg(test)]
mod connections;
#[cfg(test)]
mod memory_rows;
#[cfg(test)]
mod queries;
#[cfg(test)]
mod script_tables;
#[cfg(test)]
mod scripts;
