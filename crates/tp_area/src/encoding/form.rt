//! The form of an area as a number, which follows the base of its cut.

ghost use Rattle.std.specs.Prelude.{◌≡◌, ◌<◌};
ghost use Rattle.tp_area.specs.Lower.{NUMBER_LIMIT, base_number, form_at};

use tp_model::Form;
use tp_model::limits::{NUMBER_LIMIT, PLAIN_FORM, TURNS_FORM};

/// Gives the number that says a base and then the form of an area.
pub(crate) fn base_number(form: Form, base: u64) -> u64
    requires { base < NUMBER_LIMIT }
    ensures { result ≡ base_number form base }
{
    let form = match form {
        Form::Plain => PLAIN_FORM,
        Form::Turns => TURNS_FORM,
    };
    base + NUMBER_LIMIT * form
}

/// Gives the form that `number` says; `None` if it says none.
pub(crate) fn form_at(number: u64) -> Option<Form>
    ensures { result ≡ form_at number }
{
    match number {
        PLAIN_FORM => Some(Form::Plain),
        TURNS_FORM => Some(Form::Turns),
        _ => None,
    }
}
