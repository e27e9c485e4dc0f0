//! What the runs of both machines share: entries, traces, bytes by space and offset, and the effects on a world.
#![tactic(auto)]

pub mod access;
pub mod byte_map;
pub mod entry;
pub mod first;
pub mod log;
pub mod offset_map;
pub mod plain;
pub mod setting;
pub mod shape;
pub mod trace;
pub mod words;

pub use byte_map::ByteMap;
pub use entry::{Answer, Answers, Byte, ByteList, Entry};
pub use log::Log;
pub use offset_map::OffsetMap;
pub use setting::Setting;
pub use shape::Shape;
pub use trace::{End, Event, Events, Trace, WordList};
