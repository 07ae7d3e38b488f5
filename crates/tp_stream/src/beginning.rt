//! What is tested before a stream begins.

ghost use Rattle.std.specs.Prelude.{◌≡◌, ◌++◌, length, map, IfNone, IfSome, OnOk, IfErr};
ghost use Rattle.tp_stream.specs.Lower.{AreCounted, given_input, Noticed, OutputValue, given_of};
ghost use Rattle.tp_stream.specs.Fitting.{AllNamed, Fits, IsFirstUnnamed, Unfit, absent_of, first_past, has_sink, lacks_pages, port_has_wire};
ghost use Rattle.tp_stream.specs.Put.{EachWith};
ghost use Rattle.tp_stream.specs.Standing.{AllHaveAccepted, AllMayBegin, IsFirstRefused, IsFirstShort, IsNotBegun, OfInput, OfOutput, accepted_at, port_standing};
ghost use Rattle.tp_stream.specs.Steps.{IsSetOut};
ghost use Rattle.tp_stream.specs.Told.{input_begins, output_begins};

use crate::fault::StreamFault;
use crate::output::begin;
use crate::task::Task;
use tp_book::Book;
use tp_net::{Topology, receiver};
use tp_stream_files::{Input, Listener, Output, Sink, Source, Streams};

/// Whether a node has fewer than `spare` pages.
fn lacks_pages(topology: &Topology, spare: u16) -> bool
    ensures { result ≡ lacks_pages spare topology.now }
{
    let counts = topology.pages();
    for pages in counts {
        if *pages < spare {
            return true;
        }
    }
    false
}

/// Whether a port has a wire.
fn port_has_wire(topology: &Topology, port: u8) -> bool
    ensures { result ≡ port_has_wire topology.now port }
{
    let line = 4 * topology.pages().len() + usize::from(port);
    match receiver(topology.wires(), line) {
        Some(_) => true,
        None => false,
    }
}

/// Whether a sink is for a port.
fn has_sink<S: Sink>(outputs: &[Output<S>], port: u8) -> bool
    ensures { result ≡ has_sink port outputs.now }
{
    for output in outputs {
        if output.port() == port {
            return true;
        }
    }
    false
}

/// Gives the first port with a wire for which there is no sink; `None` if there is none.
fn unnamed<S: Sink>(topology: &Topology, outputs: &[Output<S>]) -> Option<u8>
    ensures some { IfSome result (IsFirstUnnamed topology.now outputs.now) }
    ensures none { IfNone result (AllNamed topology.now outputs.now) }
{
    for port in 0..topology.port_count() {
        if port_has_wire(topology, port as u8) && !has_sink(outputs, port as u8) {
            return Some(port as u8);
        }
    }
    None
}

/// Gives the port of the first output whose port isn't one of `ports` ports; `None` if there is none.
fn absent_output<S: Sink>(ports: usize, outputs: &[Output<S>]) -> Option<u8>
    ensures { result ≡ first_past ports (map (λ (o : OutputValue). o.port) outputs.now) }
{
    for output in outputs {
        if usize::from(output.port()) >= ports {
            return Some(output.port());
        }
    }
    None
}

/// Gives the port of the first input whose port isn't one of `ports` ports; `None` if there is none.
fn absent_input<I: Source>(ports: usize, inputs: &[Input<I>]) -> Option<u8>
    ensures { result ≡ first_past ports (map (λ i. i.port) inputs.now) }
{
    for input in inputs {
        if usize::from(input.port()) >= ports {
            return Some(input.port());
        }
    }
    None
}

/// Gives the first port that doesn't exist though a sink is for it; if there is none, the first that doesn't exist though a source is for it.
fn absent<S: Sink, I: Source>(topology: &Topology, streams: &Streams<S, I>) -> Option<u8>
    ensures { result ≡ absent_of topology.now streams.now.outputs.items (map (λ i. i.port) streams.now.inputs.items) }
{
    let ports = topology.port_count();
    match absent_output(ports, &streams.outputs) {
        Some(port) => Some(port),
        None => absent_input(ports, &streams.inputs),
    }
}

/// Gives why a network isn't run as `task` says on `streams`; `None` if it is.
pub(crate) fn task_fault<S: Sink, I: Source>(
    task: Task,
    topology: &Topology,
    streams: &Streams<S, I>,
) -> Option<StreamFault>
    ensures unfit { IfSome result (Unfit task topology.now streams.now.outputs.items (map (λ i. i.port) streams.now.inputs.items)) }
    ensures fits { IfNone result (Fits task topology.now streams.now.outputs.items (map (λ i. i.port) streams.now.inputs.items)) }
    ensures output { IfSome result (λ fault. OfOutput fault ⊥) }
    ensures input { IfSome result (λ fault. OfInput fault ⊥) }
{
    if lacks_pages(topology, task.spare) {
        return Some(StreamFault::Spare);
    }
    if let Some(port) = absent(topology, streams) {
        return Some(StreamFault::Port(port));
    }
    match unnamed(topology, &streams.outputs) {
        Some(port) => Some(StreamFault::Unnamed(port)),
        None => None,
    }
}

/// Sets out each output at the position of its port in the book of a device that opened, and tells the listener where each begins. Fails at the first
/// output that may not begin, and says why.
fn begin_outputs<S: Sink, L: Listener>(
    book: &Book,
    mark: u64,
    outputs: &mut [Output<S>],
    listener: &mut L,
) -> Result<(), StreamFault>
    requires { AreCounted mark book.now.state.ports }
    ensures begun { OnOk result (AllMayBegin (port_standing book.now mark) (map given_of outputs.old)) }
    ensures refused { IfErr result (IsFirstRefused (length book.now.state.ports) (port_standing book.now mark) (map given_of outputs.old)) }
    ensures same { map given_of outputs.new ≡ map given_of outputs.old }
    ensures set { OnOk result (EachWith (IsSetOut (port_standing book.now mark)) outputs.old outputs.new) }
    ensures told { OnOk result (Noticed (map (output_begins (port_standing book.now mark)) (map given_of outputs.old)) (L.told listener.old) (L.told listener.new)) }
{
    for output in outputs.iter_mut() {
        if usize::from(output.port()) >= book.ports() {
            return Err(StreamFault::Port(output.port()));
        }
        match begin(output, book, mark) {
            Ok(()) => listener.output(output.port(), output.put()),
            Err(fault) => return Err(fault),
        }
    }
    Ok(())
}

/// Tells the listener how much of its input each source's port has accepted. Fails with `ShortInput` at the first source that has fewer bytes, and
/// with `Port` at one whose port doesn't exist.
fn begin_inputs<I: Source, L: Listener>(
    book: &Book,
    inputs: &[Input<I>],
    listener: &mut L,
) -> Result<(), StreamFault>
    ensures begun { OnOk result (AllHaveAccepted (accepted_at book.now) (map (λ i. given_input i.port (I.input i.source)) inputs.now)) }
    ensures refused { IfErr result (IsFirstShort (length book.now.state.ports) (accepted_at book.now) (map (λ i. given_input i.port (I.input i.source)) inputs.now)) }
    ensures told { OnOk result (Noticed (map (input_begins (accepted_at book.now)) (map (λ i. given_input i.port (I.input i.source)) inputs.now)) (L.told listener.old) (L.told listener.new)) }
{
    for input in inputs {
        let port = input.port();
        if usize::from(port) >= book.ports() {
            return Err(StreamFault::Port(port));
        }
        let accepted = book.accepted(port);
        if let Some(has) = input.shortage(accepted) {
            return Err(StreamFault::ShortInput {
                port,
                has,
                accepted,
            });
        }
        listener.input(port, accepted);
    }
    Ok(())
}

/// Sets out each output at the position of its port in the book of a device that opened, and tells the listener where each output and each input
/// begins. Fails as the first output fails that may not begin, or else the first such input.
pub(crate) fn begin_all<S: Sink, I: Source, L: Listener>(
    book: &Book,
    mark: u64,
    streams: &mut Streams<S, I>,
    listener: &mut L,
) -> Result<(), StreamFault>
    requires { AreCounted mark book.now.state.ports }
    ensures begun { OnOk result (AllMayBegin (port_standing book.now mark) (map given_of streams.old.outputs.items)) }
    ensures inputs { OnOk result (AllHaveAccepted (accepted_at book.now) (map (λ i. given_input i.port (I.input i.source)) streams.old.inputs.items)) }
    ensures refused { IfErr result (IsNotBegun (length book.now.state.ports) (port_standing book.now mark) (accepted_at book.now) (map given_of streams.old.outputs.items) (map (λ i. given_input i.port (I.input i.source)) streams.old.inputs.items)) }
    ensures same { map given_of streams.new.outputs.items ≡ map given_of streams.old.outputs.items }
    ensures unread { map (λ i. given_input i.port (I.input i.source)) streams.new.inputs.items ≡ map (λ i. given_input i.port (I.input i.source)) streams.old.inputs.items }
    ensures set { OnOk result (EachWith (IsSetOut (port_standing book.now mark)) streams.old.outputs.items streams.new.outputs.items) }
    ensures told { OnOk result (Noticed (map (output_begins (port_standing book.now mark)) (map given_of streams.old.outputs.items)
        ++ map (input_begins (accepted_at book.now)) (map (λ i. given_input i.port (I.input i.source)) streams.old.inputs.items)) (L.told listener.old) (L.told listener.new)) }
{
    match begin_outputs(book, mark, &mut streams.outputs, listener) {
        Ok(()) => begin_inputs(book, &streams.inputs, listener),
        Err(fault) => Err(fault),
    }
}
