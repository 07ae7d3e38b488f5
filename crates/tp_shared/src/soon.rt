//! Locks that a thread tries for a while before it sleeps for them.

use std::hint::spin_loop;
use std::sync::{Mutex, MutexGuard, Wait};

/// How often a lock is tried before the thread sleeps for it: for some 100 microseconds, longer than a turn of 4,096 steps takes.
const LOOKS: u32 = 6400;

/// Takes a lock. It tries for a while before it sleeps for the lock: the holder would have to wake the sleeper, by a call of the system,
/// which makes a turn late.
pub(crate) fn lock_soon<'a, T, R: Wait>(rt: &R, lock: &'a Mutex<T>) -> MutexGuard<'a, T> {
    for _ in 0..LOOKS {
        if let Some(guard) = lock.try_lock() {
            return guard;
        }
        spin_loop();
    }
    lock.lock(rt)
}
