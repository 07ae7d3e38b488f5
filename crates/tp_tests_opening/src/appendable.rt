//! Whether entries may be appended to an area.

ghost use Rattle.std.specs.Prelude.{◌≡◌, true};
ghost use Rattle.tp_tests_opening.specs.Lower.{AllByRecursion, is_in_range, is_of};

use tp_model::{Entry, Form};
use tp_net::entry::is_of;
use tp_net::is_in_range;

/// Whether `entries` can be written, and an area of form `form` may hold each.
pub(crate) fn are_appendable(form: Form, entries: &[Entry]) -> bool
    ensures range { result ≡ true → AllByRecursion (λ e. is_in_range e ≡ true) entries.now }
    ensures form { result ≡ true → AllByRecursion (λ e. is_of form e ≡ true) entries.now }
{
    for i in 0..entries.len() {
        if !is_in_range(entries[i]) || !is_of(form, entries[i]) {
            return false;
        }
    }
    true
}
