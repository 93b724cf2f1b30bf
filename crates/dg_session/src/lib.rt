//! Sessions: lines come in on a stream, each is answered, and many sessions may share one table. Parties: sessions side by
//! side, one for each script, and what is printed of their history.
#![tactic(auto)]

mod answering;
mod closing;
mod ends;
mod entries_so_far;
mod laws;
mod line_format;
mod parties;
mod played;
mod serving;
mod speaking;
mod taking;
mod threads;

pub use dg_lines::{LineFault, OutOfMemory, parse_line, parse_step, reply_text};
/// Why `sessions` is refused: none was held, or what the first of them came to is not told.
pub use dg_system::Shortage as PartyFault;
pub use ends::{MAX_LINE, MAX_LINES, READ_SIZE, SessionEnd};
pub use laws::cut_one_way;
pub use line_format::LineFormat;
pub use parties::party;
pub use played::{PartyOutcome, PartyRefusal};
pub use serving::{serve, serve_seats};
pub use threads::sessions;
