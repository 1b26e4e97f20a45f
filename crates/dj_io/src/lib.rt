//! What a program reads and writes: files that are read to their ends and a sink that takes pieces, each with a
//! count of its faults, and such objects in memory, for tests.
#![tactic(auto)]

mod calls;
mod files;
mod memory_files;
mod memory_sink;
mod sink;
mod source;
mod sure_files;
mod sure_sink;
mod whole;

pub use files::{Failed, Files};
pub use memory_files::MemoryFiles;
pub use memory_sink::{Fail, MemorySink};
pub use sink::Sink;
pub use sure_files::SureFiles;
pub use sure_sink::SureSink;
pub use whole::{ReadError, read_whole};
