//! A gate that sees who enters it, and when.

use dg_log::{Log, Name};
use dg_rank::Gate;
use std::sync::atomic::{AtomicBool, AtomicU64, Ordering};

// Counts how often each seat from 1 to 15 enters, in four bits for each, and reads the log for an entry of each: one that has any
// is late.
#[derive(Drop)]
pub(crate) struct Early<'a, N: Name> {
    pub(crate) log: &'a Log<N>,
    pub(crate) counts: AtomicU64,
    pub(crate) is_late: AtomicBool,
}

impl<'a, N: Name + Send + Sync> Gate for Early<'a, N> {
    fn enter(&self, piece: u32) {
        if piece < 16 {
            self.counts.fetch_add(1 << (4 * piece), Ordering::SeqCst);
        }
        for number in 0..self.log.len() {
            if let Some((_, entry)) = self.log.read(number) {
                if u32::from(entry.seat) == piece {
                    self.is_late.store(true, Ordering::SeqCst);
                }
            }
        }
    }
}
