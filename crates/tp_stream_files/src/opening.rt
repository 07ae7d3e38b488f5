//! How the files of outputs and inputs are opened.

ghost use Rattle.std.specs.Prelude.{◌≡◌, ◌⊎◌, ◌++◌, ◌∷◌, [], true, map, is_ok, string_bytes, IfErr, IfOk, OnOk};
ghost use Rattle.tp_stream_files.specs.Any.{path_from, path_to};
ghost use Rattle.tp_stream_files.specs.Inputs.{named_input};
ghost use Rattle.tp_stream_files.specs.Named.{HaveOwnPaths, fresh_output, have_in, input_from, inputs_named, is_standard, output_away, output_to, outputs_named};
ghost use Rattle.tp_stream_files.specs.Opened.{IsSinkOf, IsSourceOf, IsUnread};
ghost use Rattle.tp_stream_files.specs.Opening.{KeepsFiles, NamesPort, to_read, to_write};
ghost use Rattle.tp_stream_files.specs.Sinks.{SyncsFolder, begin_calls};
ghost use Rattle.tp_stream_files.specs.Told.{Opened};

use crate::ends::{EndFault, Ends, PortFile};
use crate::feeds::Feed;
use crate::outside::{Outside, OutsideFile};
use crate::pipes::Pipe;
use crate::same::{Taken, are_one, same_file};
use crate::sinks::{AnySink, FileSink, file_at};
use crate::sources::AnySource;
use crate::standard::{StandardStream, StandardStreams};
use crate::system::{EndFile, EndFiles, Looks};
use crate::{Input, Output, Streams};
use std::alloc::Global;
use std::fs::{Files, OpenFile, OpenOptions};
use std::io::Write;
use std::os::unix::fs::FileExt;

/// Notes an open file as the one that takes the output of `port`. Fails with `SameFile` if the file is noted already, or is that of standard error.
fn take_sink<S: Looks, F: EndFile>(
    looks: &S,
    port: u8,
    file: &F,
    taken: &mut Taken,
) -> Result<(), EndFault>
    ensures { IfErr result (NamesPort port) }
{
    let Ok(numbers) = file.numbers() else {
        return Err(EndFault::DeviceFailed(port));
    };
    if taken.has(numbers) || are_one(numbers, looks.numbers_behind(StandardStream::Error)) {
        return Err(EndFault::SameFile(port));
    }
    taken.add(numbers)
}

/// Opens the file for an output, or makes it.
fn open_to_write<S: EndFiles<File = F>, F: EndFile + Drop>(
    files: &mut S,
    end: &PortFile,
) -> Result<F, EndFault>
    ensures noted { S.calls files.new ≡ S.calls files.old ++ Opened to_write (string_bytes end.now.path) (is_ok result) ∷ [] }
    ensures fresh { IfOk result (λ file. F.calls file ≡ Opened to_write (string_bytes end.now.path) true ∷ []) }
    ensures fault { IfErr result (λ fault. fault ≡ EndFault.DeviceFailed end.now.port) }
{
    match file_at(files, end.path.as_str()) {
        Ok(file) => Ok(file),
        Err(_) => Err(EndFault::DeviceFailed(end.port)),
    }
}

/// Makes a sink of an open file.
fn sink_over<S: EndFiles<File = F>, F: EndFile + Drop>(
    files: &mut S,
    end: &PortFile,
    file: F,
) -> Result<FileSink<F>, EndFault>
    ensures kept { KeepsFiles (S.calls files.old) (S.calls files.new) }
    ensures calls { IfOk result (λ sink. F.calls sink.file ≡ F.calls file ++ begin_calls sink.size) }
    ensures folder { IfOk result (λ sink. SyncsFolder sink.size (string_bytes end.now.path) (S.calls files.old) (S.calls files.new)) }
    ensures fault { IfErr result (λ fault. fault ≡ EndFault.DeviceFailed end.now.port) }
{
    match FileSink::over(files, end.path.as_str(), file) {
        Ok(sink) => Ok(sink),
        Err(_) => Err(EndFault::DeviceFailed(end.port)),
    }
}

/// Opens the file for an output, or makes it. Refuses a file that is noted already or that is standard error's, and leaves it as it is. Also refuses
/// anything but a regular file: the system doesn't tell the length of a disk, so nothing would tell what is in it.
fn file_sink<S: EndFiles<File = F> + Looks, F: EndFile + Drop>(
    files: &mut S,
    end: &PortFile,
    taken: &mut Taken,
) -> Result<FileSink<F>, EndFault>
    ensures kept { KeepsFiles (S.calls files.old) (S.calls files.new) }
    ensures calls { IfOk result (λ sink. F.calls sink.file ≡ Opened to_write (string_bytes end.now.path) true ∷ begin_calls sink.size) }
    ensures folder { IfOk result (λ sink. SyncsFolder sink.size (string_bytes end.now.path) (S.calls files.old ++ Opened to_write (string_bytes end.now.path) true ∷ []) (S.calls files.new)) }
    ensures fault { IfErr result (NamesPort end.now.port) }
{
    let file = open_to_write(files, end)?;
    take_sink(files, end.port, &file, taken)?;
    if file.regular_length().is_none() {
        return Err(EndFault::DeviceFailed(end.port));
    }
    sink_over(files, end, file)
}

/// Gives the sink for the output of a port: standard output, which only one port may have, or a file.
#[tactic(auto, using(crate::proofs::Keeping::keeps_none))]
fn sink_at<'a, S: EndFiles<File = F> + Looks, F: EndFile + Drop, O: Write>(
    files: &mut S,
    end: &PortFile,
    taken: &mut Taken,
    out: &mut Option<&'a mut O>,
) -> Result<AnySink<'a, F, O>, EndFault>
    ensures kept { KeepsFiles (S.calls files.old) (S.calls files.new) }
    ensures sink { IfOk result (IsSinkOf F.calls end.now (S.calls files.old) (S.calls files.new)) }
    ensures fault { IfErr result (NamesPort end.now.port) }
    ensures twice { is_standard end.now ≡ true → IfErr result (λ fault. fault ≡ EndFault.Twice end.now.port) }
{
    if end.is_standard() {
        return match out.take() {
            Some(out) => Ok(AnySink::Out(out)),
            None => Err(EndFault::Twice(end.port)),
        };
    }
    match file_sink(files, end, taken) {
        Ok(sink) => Ok(AnySink::File(sink)),
        Err(fault) => Err(fault),
    }
}

/// Notes an open file as the one that has the input of `port`.
fn take_source<F: EndFile>(port: u8, file: &F, taken: &mut Taken) -> Result<(), EndFault>
    ensures { IfErr result (NamesPort port) }
{
    let Ok(numbers) = file.numbers() else {
        return Err(EndFault::ReadFailed(port));
    };
    taken.add(numbers)
}

/// Opens a file to be read.
fn open_to_read<S: EndFiles<File = F>, F: EndFile + Drop>(
    files: &mut S,
    end: &PortFile,
) -> Result<F, EndFault>
    ensures noted { S.calls files.new ≡ S.calls files.old ++ Opened to_read (string_bytes end.now.path) (is_ok result) ∷ [] }
    ensures fresh { IfOk result (λ file. F.calls file ≡ Opened to_read (string_bytes end.now.path) true ∷ []) }
    ensures fault { IfErr result (λ fault. fault ≡ EndFault.ReadFailed end.now.port) }
{
    let mut how = OpenOptions::new();
    match files.open(how.read(true), end.path.as_str()) {
        Ok(file) => Ok(file),
        Err(_) => Err(EndFault::ReadFailed(end.port)),
    }
}

/// Opens the file for an input.
#[tactic(auto, using(crate::proofs::Keeping::keeps_read))]
fn file_source<S: EndFiles<File = F>, F: EndFile + Drop>(
    files: &mut S,
    end: &PortFile,
    taken: &mut Taken,
) -> Result<F, EndFault>
    ensures kept { KeepsFiles (S.calls files.old) (S.calls files.new) }
    ensures calls { IfOk result (λ file. (F.calls file ≡ Opened to_read (string_bytes end.now.path) true ∷ []) × (S.calls files.new ≡ S.calls files.old ++ Opened to_read (string_bytes end.now.path) true ∷ [])) }
    ensures fault { IfErr result (NamesPort end.now.port) }
{
    let file = open_to_read(files, end)?;
    take_source(end.port, &file, taken)?;
    Ok(file)
}

/// Gives standard input as a source, which only one port may have.
fn standard_source<'a, F: EndFile + Drop, I: Feed>(
    alloc: Global,
    port: u8,
    feed: &mut Option<&'a mut I>,
) -> Result<AnySource<'a, F, I>, EndFault>
    ensures source { IfOk result IsUnread }
    ensures fault { IfErr result (λ fault. (fault ≡ EndFault.Twice port) ⊎ (fault ≡ EndFault.Memory)) }
{
    let Some(feed) = feed.take() else {
        return Err(EndFault::Twice(port));
    };
    match Pipe::new(alloc, feed) {
        Ok(pipe) => Ok(AnySource::In(pipe)),
        Err(_) => Err(EndFault::Memory),
    }
}

/// Gives the source for the input of a port: standard input, which only one port may have, or a file.
#[tactic(auto, using(crate::proofs::Keeping::keeps_none))]
fn source_at<'a, S: EndFiles<File = F> + Looks, F: EndFile + Drop, I: Feed>(
    files: &mut S,
    alloc: Global,
    end: &PortFile,
    taken: &mut Taken,
    feed: &mut Option<&'a mut I>,
) -> Result<AnySource<'a, F, I>, EndFault>
    ensures kept { KeepsFiles (S.calls files.old) (S.calls files.new) }
    ensures source { IfOk result (IsSourceOf F.calls end.now (S.calls files.old) (S.calls files.new)) }
    ensures fault { IfErr result (NamesPort end.now.port) }
{
    if end.is_standard() {
        taken.add(files.numbers_behind(StandardStream::In))?;
        return standard_source(alloc, end.port, feed);
    }
    match file_source(files, end, taken) {
        Ok(file) => Ok(AnySource::File(file)),
        Err(fault) => Err(fault),
    }
}

/// Adds an output with its sink to `outputs`.
fn add_output<'a, F: EndFile + Drop, O: Write>(
    ends: &Ends,
    end: &PortFile,
    sink: AnySink<'a, F, O>,
    outputs: &mut Vec<Output<AnySink<'a, F, O>>>,
) -> Result<(), EndFault>
    ensures outputs { OnOk result (outputs.new.items ≡ outputs.old.items ++ fresh_output end.now.port (have_in ends.now.haves.items end.now.port) (path_to F.calls sink.entry) ∷ []) }
    ensures fault { IfErr result (λ fault. fault ≡ EndFault.Memory) }
{
    let have = ends.have_of(end.port);
    match outputs.push(Output::new(end.port, have, sink)) {
        Ok(()) => Ok(()),
        Err(_) => Err(EndFault::Memory),
    }
}

/// Opens the sink for an output, and adds the output to `outputs`.
fn push_output<'a, S: EndFiles<File = F> + Looks, F: EndFile + Drop, O: Write>(
    files: &mut S,
    ends: &Ends,
    end: &PortFile,
    taken: &mut Taken,
    out: &mut Option<&'a mut O>,
    outputs: &mut Vec<Output<AnySink<'a, F, O>>>,
) -> Result<(), EndFault>
    ensures kept { KeepsFiles (S.calls files.old) (S.calls files.new) }
    ensures outputs { OnOk result (outputs.new.items ≡ outputs.old.items ++ output_to ends.now.haves.items end.now ∷ []) }
    ensures fault { IfErr result (NamesPort end.now.port) }
{
    let sink = sink_at(files, end, taken, out)?;
    add_output(ends, end, sink, outputs)
}

/// Opens the sinks for the outputs of ports, and adds each output to `outputs`.
fn push_outputs<'a, S: EndFiles<File = F> + Looks, F: EndFile + Drop, O: Write>(
    files: &mut S,
    ends: &Ends,
    taken: &mut Taken,
    out: &mut Option<&'a mut O>,
    outputs: &mut Vec<Output<AnySink<'a, F, O>>>,
) -> Result<(), EndFault>
    ensures kept { KeepsFiles (S.calls files.old) (S.calls files.new) }
    ensures outputs { OnOk result (outputs.new.items ≡ outputs.old.items ++ map (output_to ends.now.haves.items) ends.now.outs.items) }
{
    for end in &ends.outs {
        push_output(files, ends, end, taken, out, outputs)?;
    }
    Ok(())
}

/// Adds the outputs that are discarded.
fn add_discards<'a, F: EndFile + Drop, O: Write>(
    ends: &Ends,
    outputs: &mut Vec<Output<AnySink<'a, F, O>>>,
) -> Result<(), EndFault>
    ensures added { OnOk result (outputs.new.items ≡ outputs.old.items ++ map output_away ends.now.discards.items) }
    ensures fault { IfErr result (λ fault. fault ≡ EndFault.Memory) }
{
    for port in &ends.discards {
        let output = Output::new(*port, None, AnySink::Nothing);
        if outputs.push(output).is_err() {
            return Err(EndFault::Memory);
        }
    }
    Ok(())
}

/// Adds the outputs with their sinks, and then those that are discarded. It checks what standard output is once all files are open.
fn push_all<'a, S: EndFiles<File = F> + Looks, F: EndFile + Drop, O: Write>(
    files: &mut S,
    ends: &Ends,
    taken: &mut Taken,
    out: &mut Option<&'a mut O>,
    outputs: &mut Vec<Output<AnySink<'a, F, O>>>,
) -> Result<(), EndFault>
    ensures kept { KeepsFiles (S.calls files.old) (S.calls files.new) }
    ensures outputs { OnOk result (outputs.new.items ≡ outputs.old.items ++ outputs_named ends.now) }
{
    push_outputs(files, ends, taken, out, outputs)?;
    match ends.standard_out() {
        Some(port) if taken.has(files.numbers_behind(StandardStream::Out)) => {
            Err(EndFault::SameFile(port))
        }
        _ => add_discards(ends, outputs),
    }
}

/// Gives the outputs with their sinks, and then those that are discarded.
fn outputs_of<'a, S: EndFiles<File = F> + Looks, F: EndFile + Drop, O: Write>(
    files: &mut S,
    alloc: Global,
    ends: &Ends,
    taken: &mut Taken,
    out: &'a mut O,
) -> Result<Vec<Output<AnySink<'a, F, O>>>, EndFault>
    ensures kept { KeepsFiles (S.calls files.old) (S.calls files.new) }
    ensures outputs { IfOk result (λ outputs. outputs.items ≡ outputs_named ends.now) }
{
    let mut outputs = Vec::new(alloc);
    match push_all(files, ends, taken, &mut Some(out), &mut outputs) {
        Ok(()) => Ok(outputs),
        Err(fault) => Err(fault),
    }
}

/// Adds an input of `port` with its source to `inputs`.
fn add_input<'a, F: EndFile + Drop, I: Feed>(
    port: u8,
    source: AnySource<'a, F, I>,
    inputs: &mut Vec<Input<AnySource<'a, F, I>>>,
) -> Result<(), EndFault>
    ensures inputs { OnOk result (map (λ i. named_input i.port (path_from F.calls i.source)) inputs.new.items
        ≡ map (λ i. named_input i.port (path_from F.calls i.source)) inputs.old.items ++ named_input port (path_from F.calls source.entry) ∷ []) }
    ensures fault { IfErr result (λ fault. fault ≡ EndFault.Memory) }
{
    match inputs.push(Input::new(port, source)) {
        Ok(()) => Ok(()),
        Err(_) => Err(EndFault::Memory),
    }
}

/// Opens the source for an input, and adds the input to `inputs`.
fn push_input<'a, S: EndFiles<File = F> + Looks, F: EndFile + Drop, I: Feed>(
    files: &mut S,
    alloc: Global,
    end: &PortFile,
    taken: &mut Taken,
    feed: &mut Option<&'a mut I>,
    inputs: &mut Vec<Input<AnySource<'a, F, I>>>,
) -> Result<(), EndFault>
    ensures kept { KeepsFiles (S.calls files.old) (S.calls files.new) }
    ensures inputs { OnOk result (map (λ i. named_input i.port (path_from F.calls i.source)) inputs.new.items
        ≡ map (λ i. named_input i.port (path_from F.calls i.source)) inputs.old.items ++ input_from end.now ∷ []) }
    ensures fault { IfErr result (NamesPort end.now.port) }
{
    let source = source_at(files, alloc, end, taken, feed)?;
    add_input(end.port, source, inputs)
}

/// Opens the sources for the inputs of ports, and adds each input to `inputs`.
fn push_inputs<'a, S: EndFiles<File = F> + Looks, F: EndFile + Drop, I: Feed>(
    files: &mut S,
    alloc: Global,
    ends: &Ends,
    taken: &mut Taken,
    feed: &mut Option<&'a mut I>,
    inputs: &mut Vec<Input<AnySource<'a, F, I>>>,
) -> Result<(), EndFault>
    ensures kept { KeepsFiles (S.calls files.old) (S.calls files.new) }
    ensures inputs { OnOk result (map (λ i. named_input i.port (path_from F.calls i.source)) inputs.new.items
        ≡ map (λ i. named_input i.port (path_from F.calls i.source)) inputs.old.items ++ inputs_named ends.now) }
{
    for end in &ends.ins {
        push_input(files, alloc, end, taken, feed, inputs)?;
    }
    Ok(())
}

/// Opens the sources for the inputs of ports.
fn inputs_of<'a, S: EndFiles<File = F> + Looks, F: EndFile + Drop, I: Feed>(
    files: &mut S,
    alloc: Global,
    ends: &Ends,
    taken: &mut Taken,
    feed: &'a mut I,
) -> Result<Vec<Input<AnySource<'a, F, I>>>, EndFault>
    ensures kept { KeepsFiles (S.calls files.old) (S.calls files.new) }
    ensures inputs { IfOk result (λ inputs. map (λ i. named_input i.port (path_from F.calls i.source)) inputs.items ≡ inputs_named ends.now) }
{
    let mut inputs = Vec::new(alloc);
    match push_inputs(files, alloc, ends, taken, &mut Some(feed), &mut inputs) {
        Ok(()) => Ok(inputs),
        Err(fault) => Err(fault),
    }
}

/// Opens all outputs and inputs, besides the files that are noted already.
fn open_beside<'a, S: EndFiles<File = F> + Looks, F: EndFile + Drop, I: Feed, O: Write>(
    files: &mut S,
    alloc: Global,
    ends: &Ends,
    taken: &mut Taken,
    feed: &'a mut I,
    out: &'a mut O,
) -> Result<Streams<AnySink<'a, F, O>, AnySource<'a, F, I>>, EndFault>
    ensures kept { KeepsFiles (S.calls files.old) (S.calls files.new) }
    ensures outputs { IfOk result (λ streams. streams.outputs.items ≡ outputs_named ends.now) }
    ensures inputs { IfOk result (λ streams. map (λ i. named_input i.port (path_from F.calls i.source)) streams.inputs.items ≡ inputs_named ends.now) }
{
    let inputs = inputs_of(files, alloc, ends, taken, feed)?;
    let outputs = outputs_of(files, alloc, ends, taken, out)?;
    Ok(Streams { outputs, inputs })
}

/// Opens all outputs and inputs; `device` is the path of the device's file. A file for an output is made if it doesn't exist. No output may go into
/// the file of the device, of an input, of another output or of standard error. If that can be seen before any file is opened, none is made.
/// Otherwise each file is compared with those opened before it, and refused as it is.
#[tactic(auto, using(crate::proofs::Keeping::keeps_none))]
pub fn open_ends_over<'a, S: EndFiles<File = F> + Looks, F: EndFile + Drop, I: Feed, O: Write>(
    files: &mut S,
    alloc: Global,
    device: &str,
    ends: &Ends,
    feed: &'a mut I,
    out: &'a mut O,
) -> Result<Streams<AnySink<'a, F, O>, AnySource<'a, F, I>>, EndFault>
    ensures kept { KeepsFiles (S.calls files.old) (S.calls files.new) }
    ensures outputs { IfOk result (λ streams. streams.outputs.items ≡ outputs_named ends.now) }
    ensures inputs { IfOk result (λ streams. map (λ i. named_input i.port (path_from F.calls i.source)) streams.inputs.items ≡ inputs_named ends.now) }
    ensures own { OnOk result (HaveOwnPaths device.now ends.now.outs.items ends.now.ins.items) }
{
    if let Some(port) = same_file(files, device, ends) {
        return Err(EndFault::SameFile(port));
    }
    let mut taken = Taken::new(alloc);
    taken.add(files.numbers_at(device))?;
    open_beside(files, alloc, ends, &mut taken, feed, out)
}

/// Opens all outputs and inputs on the files of the system.
pub fn open_ends<
    'a,
    R: Files<File = F> + StandardStreams + AllocGlobal,
    F: FileExt + OpenFile + Drop,
    I: Feed,
    O: Write,
>(
    rt: &R,
    device: &str,
    ends: &Ends,
    feed: &'a mut I,
    out: &'a mut O,
) -> Result<Streams<AnySink<'a, OutsideFile<F>, O>, AnySource<'a, OutsideFile<F>, I>>, EndFault>
    ensures outputs { IfOk result (λ streams. streams.outputs.items ≡ outputs_named ends.now) }
    ensures inputs { IfOk result (λ streams. map (λ i. named_input i.port (path_from (λ file. file.trace.told) i.source)) streams.inputs.items ≡ inputs_named ends.now) }
    ensures own { OnOk result (HaveOwnPaths device.now ends.now.outs.items ends.now.ins.items) }
{
    open_ends_over(&mut Outside::new(rt), rt.alloc(), device, ends, feed, out)
}
