//! The names that are printed of versions, forms and halts.

ghost use Rattle.std.specs.Prelude.{◌≡◌};
ghost use Rattle.tp_model.specs.Head.{version_byte};
ghost use Rattle.tp_views.specs.Names.{form_name, halt_name};

use tp_model::limits::{NARROW_VERSION, WIDE_VERSION};
use tp_model::{Fault, Form, HeadVersion};
use tp_trace::fault_name;

/// Gives the number of a head's version.
pub(crate) fn version_number(version: HeadVersion) -> u8
    ensures { result ≡ version_byte version }
{
    match version {
        HeadVersion::Narrow => NARROW_VERSION,
        HeadVersion::Wide => WIDE_VERSION,
    }
}

/// Gives the name of an area's form.
pub(crate) fn form_name(form: Form) -> &'static str
    ensures { result.now ≡ form_name form }
{
    match form {
        Form::Plain => "plain",
        Form::Turns => "turns",
    }
}

/// Gives the name for why a node halted, or that it runs.
pub(crate) fn halt_name(halt: Option<Fault>) -> &'static str
    ensures { result.now ≡ halt_name halt }
{
    match halt {
        None => "runs",
        Some(fault) => fault_name(fault),
    }
}
