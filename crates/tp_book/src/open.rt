//! Books of opened devices.

ghost use Rattle.std.specs.Prelude.{◌≡◌, IfOk};
ghost use Rattle.tp_book.specs.Bare.{without_trace};
ghost use Rattle.tp_book.specs.Opened.{IsWellOpen, book_form, opened_book};

use crate::journal::Journal;
use crate::state::NetState;
use crate::{lines_with, ports_with};
use std::alloc::{AllocError, Global};
use tp_model::Form;

/// Gives the form of a book: that of the area on its device. Without a device it may hold every entry.
fn book_form(room: Option<u64>, form: Form) -> Form
    ensures { result ≡ book_form room form }
{
    match room {
        Some(_) => form,
        None => Form::Turns,
    }
}

impl Journal {
    /// Opens the book of an opened device, whose groups may fill `room` bytes. Nothing is reserved or made ready.
    pub(crate) fn open(
        alloc: Global,
        state: &NetState,
        room: Option<u64>,
    ) -> Result<Journal, AllocError>
        requires { IsWellOpen state.now }
        ensures { IfOk result (λ journal. journal ≡ without_trace (opened_book state.now room)) }
    {
        Ok(Journal {
            start: state.cut.again(),
            wires: Vec::from_slice(alloc, &state.net.wires)?,
            lines: lines_with(alloc, &state.net.lines)?,
            ports: ports_with(alloc, &state.net.ports)?,
            entries: Vec::from_slice(alloc, &state.kept)?,
            base: state.base,
            runs: Vec::from_elem(alloc, false, state.net.images.len())?,
            reserved: 0,
            ready: None,
            broken: false,
            room,
            form: book_form(room, state.form),
        })
    }
}
