//! Where a script's bytes come from and where the written bytes go.
//!
//! A `Source` and a `Sink` each tell their content where they can, and count their faults: the count never falls, and it
//! has risen wherever a call failed. A count that stands at its type's end counts as risen. Whoever runs a script over
//! them may rely on that and on nothing else. Beside the two traits stand a source and a sink in memory, whose calls
//! can be made to fail, and adapters over any reader and any writer of std.
#![tactic(auto)]

mod authorizer;
mod memory;
mod sink;
mod source;
mod std_streams;

pub use authorizer::Authorizer;
pub use memory::{MemorySink, MemorySource};
pub use sink::{Sink, WriteAnswer};
pub use source::{ReadAnswer, Source};
pub use std_streams::{StreamSink, StreamSource};
