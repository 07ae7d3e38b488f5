//! What was typed of the ends of a stream's ports.

ghost use Rattle.std.specs.Prelude.{◌≡◌, ◌≢◌, ◌⊎◌, ◌++◌, ◌∷◌, ◌<◌, ◌==◌, ◌^◌, All, Any, Some, if◌then◌else◌, nat_lt, IfErr, IfOk, IfSome, None, codes, count_by, length, map};
ghost use Rattle.tp_words.specs.Lower.{decimal, MAX_PORTS, standard_port};
ghost use Rattle.tp_words.specs.Ends.{AreEnds, AreSound, IsFaultOf, IsFile, IsFirstFault, IsHave, IsNoFile, IsNoHave, IsNoPort, IsPort, IsRefused, IsTextFault, WereTyped, fault_at, file_text, have_text, id_of, reader_fault, standard_count};
ghost use Rattle.tp_words.specs.Given.{all_given};
ghost use Rattle.tp_words.specs.Standard.{AreStandard};
ghost use Rattle.tp_words.specs.Told.{ends_text};
ghost use Rattle.tp_words.specs.declared.stream_ends.EndsFault.TheVariants.{File, Have, Discard, Memory};

use crate::numbers::{after_first, all_given_in, number_of};
use std::alloc::{AllocError, AllocFailed, Global};
use std::fmt;
use tp_model::limits::MAX_PORTS;
use tp_stream_files::{Ends, PortFile, PortNumber};

/// An option whose values are files of ports.
#[derive(Clone, Copy)]
pub enum FileOption {
    /// `--out`: where outputs go.
    Out,
    /// `--in`: where inputs come from.
    In,
}

impl FileOption {
    ghost use Rattle.tp_words.specs.Ends.{id_of};

    /// Its name.
    fn id(self) -> &'static str
        ensures { result.now ≡ id_of self }
    {
        match self {
            FileOption::Out => "out",
            FileOption::In => "in",
        }
    }
}

/// Why what was typed names no ends. Each ends the program with status 2.
#[derive(Drop)]
pub enum EndsFault {
    /// What is after this option isn't a port, an equals sign and a file.
    File(FileOption),
    /// What is after `--have` isn't a port, an equals sign and a number.
    Have,
    /// What is after `--discard` is no port.
    Discard,
    /// The output of this port goes to two places.
    TwoOutputs(u8),
    /// The input of this port comes from two places.
    TwoInputs(u8),
    /// This option names standard output, or standard input, twice.
    TwoStandard(FileOption),
    /// `--have` is for a port whose output doesn't go to standard output, or is there twice.
    NoReader(u8),
    Memory,
}

/// Says what an option takes whose values are files of ports.
fn say_file<W: fmt::Write>(f: &mut fmt::Formatter<W>, id: &str) -> fmt::Result {
    write!(
        f,
        "tpnet: with --stream --{id} takes P=FILE or P=-, P a port from 0 to 7; as --{id} 0=bytes\n"
    )
}

/// Says that two ports live on standard output, or on standard input.
fn say_two<W: fmt::Write>(f: &mut fmt::Formatter<W>, id: &str) -> fmt::Result {
    write!(
        f,
        "tpnet: --{id} P=- may be there once: the bytes of two ports would be mixed\n"
    )
}

impl fmt::Display for EndsFault {
    ghost output = { λ fault. ends_text fault };

    fn fmt<W: fmt::Write>(&self, f: &mut fmt::Formatter<W>) -> fmt::Result {
        match self {
            EndsFault::File(option) => say_file(f, option.id()),
            EndsFault::Have => f.write_str(
                "tpnet: --have takes P=Z, P a port from 0 to 7 and Z a decimal; as --have 0=4096\n",
            ),
            EndsFault::Discard => f.write_str("tpnet: --discard takes a port from 0 to 7\n"),
            EndsFault::TwoOutputs(port) => write!(
                f,
                "tpnet: port {port} has two places for its output: leave one --out {port} or --discard {port}\n"
            ),
            EndsFault::TwoInputs(port) => {
                write!(
                    f,
                    "tpnet: port {port} has two inputs: leave one --in {port}\n"
                )
            }
            EndsFault::TwoStandard(option) => say_two(f, option.id()),
            EndsFault::NoReader(port) => write!(
                f,
                "tpnet: --have {port} goes with --out {port}=-, once: a file's reader needs none\n"
            ),
            EndsFault::Memory => f.write_str("tpnet: Memory\n"),
        }
    }
}

impl From<AllocError> for EndsFault {
    ghost from_gives = { λ _ fault. fault ≡ Memory };

    fn from(_error: AllocError) -> EndsFault {
        EndsFault::Memory
    }
}

impl<T: Drop> From<AllocFailed<T>> for EndsFault {
    ghost from_gives = { λ _ fault. fault ≡ Memory };

    fn from(_error: AllocFailed<T>) -> EndsFault {
        EndsFault::Memory
    }
}

/// The port of a number, if a device may have one.
fn port_at(number: u64) -> Option<u8>
    ensures port { result ≡ (if nat_lt number MAX_PORTS then Some number else None) }
    ensures number { number < 2 ^ 64 }
{
    if number < MAX_PORTS as u64 {
        Some(number as u8)
    } else {
        None
    }
}

/// The port whose number is typed so, if a device may have one.
fn port_of(alloc: Global, text: &str) -> Result<Option<u8>, AllocError>
    ensures some { IfOk result (λ found. IfSome found (λ port. (port < MAX_PORTS) × (text.now ≡ decimal port))) }
    ensures none { IfOk result (λ found. found ≡ None → IsNoPort text.now) }
{
    let Some(number) = number_of(alloc, text)? else {
        return Ok(None);
    };
    Ok(port_at(number))
}

/// The port, and the text after the equals sign, which isn't empty.
fn pair_of<'a>(alloc: Global, text: &'a str) -> Result<Option<(u8, &'a str)>, AllocError>
    ensures port { IfOk result (λ found. IfSome found (λ pair. pair.0 < MAX_PORTS)) }
    ensures rest { IfOk result (λ found. IfSome found (λ pair. 0 < length pair.1.now)) }
    ensures text { IfOk result (λ found. IfSome found (λ pair. text.now ≡ decimal pair.0 ++ 61 ∷ pair.1.now)) }
    ensures none { IfOk result (λ found. found ≡ None → IsNoFile text.now) }
{
    let Some(parts) = text.split_once('=') else {
        return Ok(None);
    };
    if parts.1.is_empty() {
        return Ok(None);
    }
    let Some(port) = port_of(alloc, parts.0)? else {
        return Ok(None);
    };
    Ok(Some((port, parts.1)))
}

/// All that was typed for an option, in order.
fn texts_of<'a>(alloc: Global, words: &'a [String], id: &str) -> Result<Vec<&'a str>, AllocError>
    ensures { IfOk result (λ texts. map (λ text. text.now) texts.items ≡ all_given id.now words.now) }
{
    let name = format!(in alloc; "--{id}")?;
    let ending = format!(in alloc; "--{id}=")?;
    all_given_in(alloc, after_first(words), name.as_str(), ending.as_str())
}

/// The end that was typed so for an option.
fn file_of(alloc: Global, text: &str, option: FileOption) -> Result<PortFile, EndsFault>
    ensures file { IfOk result IsFile }
    ensures typed { IfOk result (λ file. file_text file ≡ text.now) }
    ensures refused { IfErr result (λ fault. (fault ≡ Memory) ⊎ ((fault ≡ File option) × IsNoFile text.now)) }
{
    let Some((port, path)) = pair_of(alloc, text)? else {
        return Err(EndsFault::File(option));
    };
    let path = String::from_str(alloc, path)?;
    Ok(PortFile { port, path })
}

/// The ends that were typed so for an option.
fn files_in(alloc: Global, texts: &[&str], option: FileOption) -> Result<Vec<PortFile>, EndsFault>
    ensures files { IfOk result (λ files. All IsFile files.items) }
    ensures typed { IfOk result (λ files. map file_text files.items ≡ map (λ text. text.now) texts.now) }
    ensures refused { IfErr result (λ fault. (fault ≡ Memory) ⊎ ((fault ≡ File option) × Any IsNoFile (map (λ text. text.now) texts.now))) }
{
    let mut files = Vec::new(alloc);
    for text in texts {
        files.push(file_of(alloc, text, option)?)?;
    }
    Ok(files)
}

/// The ports and files that were typed for an option.
pub(crate) fn files_of(
    alloc: Global,
    words: &[String],
    option: FileOption,
) -> Result<Vec<PortFile>, EndsFault>
    ensures files { IfOk result (λ files. All IsFile files.items) }
    ensures typed { IfOk result (λ files. map file_text files.items ≡ all_given (id_of option) words.now) }
    ensures refused { IfErr result (IsTextFault IsNoFile (File option) (all_given (id_of option) words.now)) }
{
    files_in(alloc, &texts_of(alloc, words, option.id())?, option)
}

/// What a reader has of its port, as it was typed.
fn have_of(alloc: Global, text: &str) -> Result<PortNumber, EndsFault>
    ensures have { IfOk result IsHave }
    ensures typed { IfOk result (λ have. have_text have ≡ text.now) }
    ensures refused { IfErr result (λ fault. (fault ≡ Memory) ⊎ ((fault ≡ Have) × IsNoHave text.now)) }
{
    let Some(pair) = pair_of(alloc, text)? else {
        return Err(EndsFault::Have);
    };
    let Some(number) = number_of(alloc, pair.1)? else {
        return Err(EndsFault::Have);
    };
    Ok(PortNumber {
        port: pair.0,
        number,
    })
}

/// What readers have of their ports, as it was typed.
fn haves_in(alloc: Global, texts: &[&str]) -> Result<Vec<PortNumber>, EndsFault>
    ensures haves { IfOk result (λ haves. All IsHave haves.items) }
    ensures typed { IfOk result (λ haves. map have_text haves.items ≡ map (λ text. text.now) texts.now) }
    ensures refused { IfErr result (λ fault. (fault ≡ Memory) ⊎ ((fault ≡ Have) × Any IsNoHave (map (λ text. text.now) texts.now))) }
{
    let mut haves = Vec::new(alloc);
    for text in texts {
        haves.push(have_of(alloc, text)?)?;
    }
    Ok(haves)
}

/// Up to where readers have what they were given.
fn haves_of(alloc: Global, words: &[String]) -> Result<Vec<PortNumber>, EndsFault>
    ensures haves { IfOk result (λ haves. All IsHave haves.items) }
    ensures typed { IfOk result (λ haves. map have_text haves.items ≡ all_given (codes "have") words.now) }
    ensures refused { IfErr result (IsTextFault IsNoHave Have (all_given (codes "have") words.now)) }
{
    haves_in(alloc, &texts_of(alloc, words, "have")?)
}

/// The port that was typed so for `--discard`.
fn discard_of(alloc: Global, text: &str) -> Result<u8, EndsFault>
    ensures port { IfOk result IsPort }
    ensures typed { IfOk result (λ port. decimal port ≡ text.now) }
    ensures refused { IfErr result (λ fault. (fault ≡ Memory) ⊎ ((fault ≡ Discard) × IsNoPort text.now)) }
{
    match port_of(alloc, text)? {
        Some(port) => Ok(port),
        None => Err(EndsFault::Discard),
    }
}

/// The ports that were typed so for `--discard`.
fn discards_in(alloc: Global, texts: &[&str]) -> Result<Vec<u8>, EndsFault>
    ensures ports { IfOk result (λ ports. All IsPort ports.items) }
    ensures typed { IfOk result (λ ports. map decimal ports.items ≡ map (λ text. text.now) texts.now) }
    ensures refused { IfErr result (λ fault. (fault ≡ Memory) ⊎ ((fault ≡ Discard) × Any IsNoPort (map (λ text. text.now) texts.now))) }
{
    let mut ports = Vec::new(alloc);
    for text in texts {
        ports.push(discard_of(alloc, text)?)?;
    }
    Ok(ports)
}

/// The ports whose output is dropped.
fn discards_of(alloc: Global, words: &[String]) -> Result<Vec<u8>, EndsFault>
    ensures ports { IfOk result (λ ports. All IsPort ports.items) }
    ensures typed { IfOk result (λ ports. map decimal ports.items ≡ all_given (codes "discard") words.now) }
    ensures refused { IfErr result (IsTextFault IsNoPort Discard (all_given (codes "discard") words.now)) }
{
    discards_in(alloc, &texts_of(alloc, words, "discard")?)
}

/// How many of the files are for a port.
pub(crate) fn count_of(files: &[PortFile], port: u8) -> usize
    ensures { result ≡ count_by (λ file. file.port == port) files.now }
{
    let mut count = 0;
    for file in files {
        if file.port == port {
            count += 1;
        }
    }
    count
}

/// How many of the ports whose output is dropped are this one.
fn discard_count(discards: &[u8], port: u8) -> usize
    ensures { result ≡ count_by (λ other. other == port) discards.now }
{
    let mut count = 0;
    for other in discards {
        if *other == port {
            count += 1;
        }
    }
    count
}

/// How many of the files are standard output, or standard input.
fn standards(files: &[PortFile]) -> usize
    ensures { result ≡ standard_count files.now }
{
    let mut count = 0;
    for file in files {
        if file.is_standard() {
            count += 1;
        }
    }
    count
}

/// What is wrong with the ends of a port that has two places for its output, or two inputs.
fn fault_at(ends: &Ends, port: u8) -> Option<EndsFault>
    ensures { result ≡ fault_at ends.now port }
{
    let discards = discard_count(&ends.discards, port);
    if count_of(&ends.outs, port).saturating_add(discards) > 1 {
        return Some(EndsFault::TwoOutputs(port));
    }
    if count_of(&ends.ins, port) > 1 {
        return Some(EndsFault::TwoInputs(port));
    }
    None
}

/// What is wrong with the ends of the first port that has two places for its output, or two inputs.
fn named_twice(ends: &Ends) -> Option<EndsFault>
    ensures { IsFirstFault ends.now result }
{
    for port in 0..MAX_PORTS as u8 {
        if let Some(fault) = fault_at(ends, port) {
            return Some(fault);
        }
    }
    None
}

/// A port with `--have` for which no reader counts: that isn't standard output's, or is the second one.
fn no_reader(ends: &Ends) -> Option<EndsFault>
    ensures { result ≡ reader_fault (standard_port ends.now.outs.items) ends.now.haves.items }
{
    let (first, others) = ends.haves.split_first()?;
    if ends.standard_out() != Some(first.port) {
        return Some(EndsFault::NoReader(first.port));
    }
    let second = others.first()?;
    Some(EndsFault::NoReader(second.port))
}

/// What is wrong with ends that were typed.
fn fault_of(ends: &Ends) -> Option<EndsFault>
    ensures fault { IsFaultOf ends.now result }
    ensures none { result ≡ None → AreSound ends.now }
{
    if let Some(fault) = named_twice(ends) {
        return Some(fault);
    }
    if standards(&ends.outs) > 1 {
        return Some(EndsFault::TwoStandard(FileOption::Out));
    }
    if standards(&ends.ins) > 1 {
        return Some(EndsFault::TwoStandard(FileOption::In));
    }
    no_reader(ends)
}

/// The ends of ports that were typed.
pub fn ends_of(alloc: Global, words: &[String]) -> Result<Ends, EndsFault>
    ensures ends { IfOk result AreEnds }
    ensures typed { IfOk result (WereTyped words.now) }
    ensures standard { IfOk result (AreStandard words.now) }
    ensures refused { IfErr result (IsRefused words.now) }
{
    let ends = Ends {
        outs: files_of(alloc, words, FileOption::Out)?,
        haves: haves_of(alloc, words)?,
        discards: discards_of(alloc, words)?,
        ins: files_of(alloc, words, FileOption::In)?,
    };
    match fault_of(&ends) {
        Some(fault) => Err(fault),
        None => Ok(ends),
    }
}
