//! What a worker and a host get, call by call.

use crate::acts::turn;
use crate::desk::Done;
use crate::stories::HOSTS;
use crate::worked::{first_stop, played};
use std::test::Fail;
use tp_model::{Entry, Received, Token};

#[test]
fn a_worker_and_a_host(rt: HostRuntime) -> Result<(), Fail> {
    let alloc = rt.alloc();
    let Some(call) = first_stop(&rt, alloc, &HOSTS, &[]) else {
        panic!(rt; "a call stops it where it was told")
    };
    let journal = [
        Entry::Run { node: 0, count: 3 },
        Entry::Take {
            line: 0,
            token: Token::Data(0x41),
        },
        turn(0, Received::JustAck, 16),
        Entry::HostIn {
            port: 0,
            byte: b'a',
        },
        Entry::HostIn {
            port: 0,
            byte: b'b',
        },
        Entry::Confirm { port: 0, upto: 1 },
        turn(0, Received::JustData(b'a'), 16),
    ];
    let left = played(&rt, alloc, &HOSTS, Some((call, 0)))?;
    assert!(rt; left.done == Done::All && left.told.journal.as_slice() == journal.as_slice());
    Ok(())
}
