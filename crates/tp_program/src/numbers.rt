//! What is made of numbers that the system says, if it says them.

ghost use Rattle.std.specs.Prelude.{◌≡◌, ◌^◌, nat_lt, if◌then◌else◌};
ghost use Rattle.tp_program.specs.Numbers.{millis_of, processors_of, seconds_in, time_of};

use std::io;
use std::num::NonZeroUsize;
use std::time::Duration;

/// Gives a number of 64 bits; 0 for a greater one.
fn short_of(number: u128) -> u64
    ensures { result ≡ (if nat_lt number (2 ^ 64) then number else 0) }
{
    if number <= u64::MAX as u128 {
        number as u64
    } else {
        0
    }
}

/// Gives the milliseconds of a time; 0 if the system doesn't say it, or 64 bits don't hold it.
pub fn millis_of(time: io::Result<Duration>) -> u64
    ensures { result ≡ millis_of time }
{
    match time {
        Ok(time) => short_of(time.as_millis()),
        Err(_) => 0,
    }
}

/// Gives the whole seconds of a time; `None` if the system doesn't say it.
pub fn seconds_in(time: io::Result<Duration>) -> Option<u64>
    ensures { result ≡ seconds_in time }
{
    match time {
        Ok(time) => Some(time.as_secs()),
        Err(_) => None,
    }
}

/// Gives the time that lines go by, in milliseconds: none while what was said isn't written.
pub fn time_of(time: io::Result<Duration>, is_written: bool) -> Option<u64>
    ensures { result ≡ time_of time is_written }
{
    if is_written {
        Some(millis_of(time))
    } else {
        None
    }
}

/// Gives how many processors there are; 1 if the system doesn't say it.
pub fn processors_of(count: io::Result<NonZeroUsize>) -> usize
    ensures { result ≡ processors_of count }
{
    match count {
        Ok(count) => count.get(),
        Err(_) => 1,
    }
}
