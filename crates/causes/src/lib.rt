//! Reading scripts and writing replies, where each failure has a cause that the caller can see.
//!
//! It builds on `cell_core` for words. A source (`Scripts`) and a sink (`Sink`) count their faults,
//! and a call fails only where that count rose in it, or where memory runs out. `read_all` returns
//! the whole text of a script or says why not; `write_all` adds exactly a text, or a prefix of it.
//! `MemScripts`, `SureScripts` and `MemSink` are in memory, and contracts know their bytes.
//! `FileScripts` reads the system's files, `OutSink` writes to standard output, and contracts know
//! no bytes of either.
#![tactic(auto)]

mod error;
mod failing_calls;
mod mem_scripts;
mod mem_sink;
mod open_files;
mod reading;
mod real;
mod sink;
mod source;
mod sure_scripts;
mod writing;

pub use error::{Failed, ReadError, WriteFault};
pub use mem_scripts::MemScripts;
pub use mem_sink::MemSink;
pub use reading::{MOST_BYTES, Script, read_all};
pub use real::{FileScripts, OutSink};
pub use sink::Sink;
pub use source::Scripts;
pub use sure_scripts::SureScripts;
pub use writing::write_all;
