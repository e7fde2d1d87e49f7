use crate::bell::Bell;
use std::rt;
use std::sync::{Condvar, Mutex, Wait};
use std::time::Duration;

/// How long a wait lasts at most, in seconds.
const WAIT_SECONDS: u64 = 1;

/// A bell that threads hear: a wait ends once a greater number was rung, or after a second.
#[derive(Drop)]
pub struct ThreadBell<'a, R> {
    rt: &'a R,
    greatest: Mutex<u64>,
    rang: Condvar,
}

impl<'a, R> ThreadBell<'a, R> {
    /// A bell that wasn't rung yet.
    pub fn new(rt: &'a R) -> Self {
        ThreadBell {
            rt,
            greatest: Mutex::new(0),
            rang: Condvar::new(),
        }
    }
}

impl<R: Wait + rt::Clock> Bell for ThreadBell<'_, R> {
    fn ring(&self, n: u64) {
        raise(&mut *self.greatest.lock(self.rt), n);
        self.rang.notify_all();
    }

    fn wait(&self, known: u64) {
        let second = Duration::from_secs(WAIT_SECONDS);
        let greatest = self.greatest.lock(self.rt);
        let _heard = self
            .rang
            .wait_timeout_while(self.rt, greatest, second, |greatest| *greatest <= known);
    }
}

/// Raises a number to another, where that is greater.
fn raise(greatest: &mut u64, n: u64) {
    if *greatest < n {
        *greatest = n;
    }
}
