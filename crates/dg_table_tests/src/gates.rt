//! A gate at which several meet.

use dg_rank::Gate;
use std::sync::atomic::{AtomicBool, AtomicU32, Ordering};
use std::thread;
use std::time::{Clock, Duration};

// Holds each who enters until so many have entered, but for no more than a million turns.
#[derive(Drop)]
pub(crate) struct Meeting<'a, R> {
    pub(crate) rt: &'a R,
    pub(crate) count: u32,
    pub(crate) entered: AtomicU32,
    pub(crate) has_missed: AtomicBool,
}

impl<'a, R> Meeting<'a, R> {
    pub(crate) fn of_two(rt: &'a R) -> Meeting<'a, R> {
        Meeting {
            rt,
            count: 2,
            entered: AtomicU32::new(0),
            has_missed: AtomicBool::new(false),
        }
    }

    pub(crate) fn has_met(&self) -> bool {
        self.entered.load(Ordering::SeqCst) == self.count && !self.has_missed.load(Ordering::SeqCst)
    }
}

impl<'a, R: Clock + Sync> Gate for Meeting<'a, R> {
    fn enter(&self, _piece: u32) {
        self.entered.fetch_add(1, Ordering::SeqCst);
        for _ in 0..1_000_000 {
            if self.entered.load(Ordering::SeqCst) >= self.count {
                return;
            }
            thread::sleep(self.rt, Duration::from_micros(10));
        }
        self.has_missed.store(true, Ordering::SeqCst);
    }
}
