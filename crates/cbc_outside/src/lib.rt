//! What the program reads and writes, and the faults of both: two traits, a source and a sink in memory whose
//! calls fail as they are told to, and the adapters over the system.
#![tactic(auto)]

mod adapters;
mod lists;
mod mem_sink;
mod mem_source;
mod opened_names;
mod outside;
mod streams;

pub use adapters::{FileSource, OutSink};
pub use lists::{Calls, NamedFiles};
pub use mem_sink::MemSink;
pub use mem_source::MemSource;
pub use opened_names::OpenedNames;
pub use outside::{Failed, Sink, Source};
pub use streams::{ReadStop, read_all, write_all};
