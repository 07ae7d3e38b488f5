//! What one check of `tpnet status` sees, with which the next one compares.

ghost use Rattle.std.specs.Prelude.{◌≡◌, ◌<◌, ◌^◌, IfOk, map};
ghost use Rattle.tp_views.specs.Status.{IsSeen, bytes_accepted, accepted_before, millis_since, next_before, out_before, percent, port_before, port_seen, bytes_put_out, entries_room, rate};

use std::alloc::{AllocError, Global};
use tp_area::JournalRoom;
use tp_book::HostPort;
use tp_recover::{Opened, entries_left};

/// What a check sees of a port: how many bytes it has accepted, and how many it has put out.
#[derive(Clone, Copy)]
pub struct PortSeen {
    accepted: u128,
    out: u128,
}

/// What a check sees of a device: the time in milliseconds, the number of the next entry, and each port.
#[derive(Drop)]
pub struct Seen {
    at: u64,
    next: u64,
    ports: Vec<PortSeen>,
}

/// What a count was before, and how many milliseconds ago.
#[derive(Clone, Copy)]
pub(crate) struct Since {
    pub(crate) count: u128,
    pub(crate) millis: u64,
}

/// How many bytes a port has accepted.
pub(crate) fn accepted(port: &HostPort) -> u128
    ensures value { result ≡ bytes_accepted port.now.port }
    ensures bound { result < 2 ^ 65 }
{
    port.in_base() as u128 + port.pending().len() as u128
}

/// How many bytes a port has put out.
pub(crate) fn put_out(port: &HostPort) -> u128
    ensures value { result ≡ bytes_put_out port.now.port }
    ensures bound { result < 2 ^ 65 }
{
    port.out_base() as u128 + port.outputs().len() as u128
}

fn port_seen(port: &HostPort) -> PortSeen
    ensures { result ≡ port_seen port.now.port }
{
    PortSeen {
        accepted: accepted(port),
        out: put_out(port),
    }
}

/// Gives what a check sees of the ports.
fn ports_seen(alloc: Global, ports: &[HostPort]) -> Result<Vec<PortSeen>, AllocError>
    ensures { IfOk result (λ seen. seen.items ≡ map (λ port. port_seen port.port) ports.now) }
{
    let mut seen = Vec::new(alloc);
    for port in ports {
        seen.push(port_seen(port))?;
    }
    Ok(seen)
}

/// Gives what a check sees of an opened device, at a time in milliseconds.
pub(crate) fn seen_of(alloc: Global, at: u64, opened: &Opened) -> Result<Seen, AllocError>
    ensures { IfOk result (λ seen. IsSeen at opened.now seen) }
{
    let ports = ports_seen(alloc, opened.network().ports())?;
    Ok(Seen {
        at,
        next: opened.next(),
        ports,
    })
}

/// Gives the number of the next entry at the check before.
pub(crate) fn next_before(at: u64, before: &Option<Seen>) -> Option<Since>
    ensures { result ≡ next_before at before.now }
{
    match before {
        Some(seen) => Some(Since {
            count: seen.next as u128,
            millis: at.saturating_sub(seen.at),
        }),
        None => None,
    }
}

/// Gives what the check before saw of a port; `None` if there was no such check or port.
pub(crate) fn port_before(before: &Option<Seen>, number: usize) -> Option<PortSeen>
    ensures { result ≡ port_before before.now number }
{
    match before {
        Some(seen) => match seen.ports.get(number) {
            Some(port) => Some(*port),
            None => None,
        },
        None => None,
    }
}

/// How many milliseconds ago the check before was.
pub(crate) fn millis_since(at: u64, before: &Option<Seen>) -> u64
    ensures { result ≡ millis_since at before.now }
{
    match before {
        Some(seen) => at.saturating_sub(seen.at),
        None => 0,
    }
}

pub(crate) fn accepted_before(millis: u64, before: Option<PortSeen>) -> Option<Since>
    ensures { result ≡ accepted_before millis before }
{
    match before {
        Some(port) => Some(Since {
            count: port.accepted,
            millis,
        }),
        None => None,
    }
}

pub(crate) fn out_before(millis: u64, before: Option<PortSeen>) -> Option<Since>
    ensures { result ≡ out_before millis before }
{
    match before {
        Some(port) => Some(Since {
            count: port.out,
            millis,
        }),
        None => None,
    }
}

/// By how much a count grew in a second, rounded down; `None` if it wasn't seen before.
pub(crate) fn rate(now: u128, since: Option<Since>) -> Option<u128>
    requires { now < 2 ^ 65 }
    ensures { result ≡ rate now since }
{
    match since {
        Some(Since { count, millis }) if millis != 0 => {
            Some(now.saturating_sub(count) * 1000 / millis as u128)
        }
        _ => None,
    }
}

/// How much of the room is in use, in percent.
pub(crate) fn percent(entries: usize, room: u64) -> u128
    ensures { result ≡ percent entries room }
{
    if room == 0 {
        0
    } else {
        entries as u128 * 100 / room as u128
    }
}

/// How many entries the journal of an opened device has room for.
pub(crate) fn room_of(opened: &Opened) -> u64
    ensures { result ≡ entries_room opened.now }
{
    let head = opened.head();
    let journal = JournalRoom::of(head.topology(), head.areas().length);
    entries_left(journal, 0, opened.base())
}
