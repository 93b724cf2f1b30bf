//! The history of one table, in cells that are each set once, and receipts for its entries. No call takes memory but
//! `Row::new`.
//!
//! What is known of a cell goes by tokens, copies of the notes of `once_cell`, which can be read, copied and compared behind a
//! `&`. They take no bytes, and no step of theirs touches a cell.
#![tactic(auto)]

mod log;
mod name;
mod pen;
mod prefix;
mod receipt;
mod receipt_set;
mod roll;
mod row;
mod witness;
mod witnesses;

pub use log::Log;
pub use name::Name;
pub use pen::Pen;
pub use prefix::Prefix;
pub use receipt::Receipt;
pub use receipt_set::ReceiptSet;
pub use roll::{Claim, Roll};
pub use row::{LogFault, Row};
