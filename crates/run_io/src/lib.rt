//! The outside: a source of bytes and a sink for bytes, as traits whose faults are counted, ends
//! in memory that fail where they are told to or never, ends over std's reader and writer, and
//! whole reads and writes over any of them. `basics` stands below.
//! Proved: a fault is answered only where the end's own count rose, and what was read and written
//! is exactly what left the source and reached the sink, where these tell their bytes.
#![tactic(auto)]

mod counting;
pub mod memory;
pub mod reading;
pub mod sink;
pub mod source;
pub mod standard;
pub mod sure;
pub mod writing;

pub use memory::{MemorySink, MemorySource};
pub use reading::{ReadEnd, read_all};
pub use sink::Sink;
pub use source::{Failed, Source};
pub use standard::{StdSink, StdSource};
pub use sure::{SureSink, SureSource};
pub use writing::{WriteEnd, write_piece};
