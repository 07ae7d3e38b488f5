//! Messages under way.

ghost use Rattle.std.specs.Prelude.{◌≡◌};
ghost use Rattle.tp_model.specs.LinkEnd.{advanced, has_more};

use tp_model::Transfer;

/// Moves past one byte, after which more are left.
pub(crate) fn advanced(transfer: Transfer) -> Transfer
    ensures { result ≡ advanced transfer }
{
    Transfer {
        pointer: transfer.pointer.wrapping_add(1),
        left: transfer.left.saturating_sub(1),
        ..transfer
    }
}

/// Whether bytes are left after the next one.
pub(crate) fn has_more(transfer: Transfer) -> bool
    ensures { result ≡ has_more transfer }
{
    transfer.left > 1
}
