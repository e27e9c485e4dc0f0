//! Where bytes come from and go to: traits with a count of faults, forms in memory, the standard
//! streams, and the files of the file system.
#![tactic(auto)]

mod calls;
mod command_line;
mod file_shelf;
mod files;
mod mem_shelf;
mod mem_sink;
mod mem_source;
mod reading;
mod sequence;
mod std_streams;
mod traits;
mod writing;

pub use command_line::words_of;
pub use file_shelf::FileShelf;
pub use files::{File, Files};
pub use mem_shelf::MemShelf;
pub use mem_sink::MemSink;
pub use mem_source::MemSource;
pub use reading::{ReadEnd, read_all};
pub use sequence::{Bytes, Fails, Memory, Sequence, Words};
pub use std_streams::{StdSink, StdSource};
pub use traits::{Failed, Shelf, Sink, Source};
pub use writing::write_all;
