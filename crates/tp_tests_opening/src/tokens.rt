//! Tokens as the program runs.

use tp_model::Entry;
use tp_ready::roll::Roll;
use tp_ready::slips::Slips;
use tp_ready::twin::{Key, Seal};

/// Tokens have no bytes.
#[test]
fn tokens_cost_nothing(rt: HostRuntime) {
    let sizes = [
        size_of::<Seal<Entry>>(),
        size_of::<Key<Entry>>(),
        size_of::<Roll<Entry>>(),
        size_of::<Slips<Entry>>(),
    ];
    assert!(rt; sizes == [0; 4]);
}
