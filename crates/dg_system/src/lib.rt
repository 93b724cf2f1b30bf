//! What the program has from the machine: files, streams and threads, and the memory or thread that it may lack.
#![tactic(auto)]

mod input;
mod output;
mod reading;
mod retry;
mod shortage;
mod sources;
mod stream;
mod threads;

pub use input::Input;
pub use output::{Output, WriteFailed};
pub use reading::read_all;
pub use shortage::Shortage;
pub use sources::{DiskFiles, MAX_FILE, MemoryFiles, SourceFault, Sources, read_within};
pub use stream::Stream;
pub use threads::in_parallel;
