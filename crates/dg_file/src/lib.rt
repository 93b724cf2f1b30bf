//! Table files: what the bytes of one describe.
#![tactic(auto)]

mod fault;
mod laws;
mod shape;
mod table_file;

pub use dg_tokens::Names;
pub use fault::{FileFault, Shape};
pub use laws::file_meaning_is_unique;
pub use table_file::{TableFile, read_table};
