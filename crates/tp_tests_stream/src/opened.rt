//! Ends of streams as they are opened, over files in memory.

use crate::feeds::Numbered;
use crate::files::{FakeFile, FakeFiles, Left};
use std::alloc::{AllocError, Global};
use std::test::Fail;
use tp_stream_files::{EndFault, Ends, FileNumbers, Plain, PortFile, is_one_file, open_ends_over};

/// The output of port 0 goes to a file.
fn ends_of(alloc: Global) -> Result<Ends, AllocError> {
    outputs_to(alloc, &[(0, "folder/out")])
}

/// The outputs of ports go to the files of these paths.
fn outputs_to(alloc: Global, paths: &[(u8, &str)]) -> Result<Ends, AllocError> {
    let mut outs = Vec::new(alloc);
    for (port, path) in paths {
        let path = String::from_str(alloc, path)?;
        outs.push(PortFile { port: *port, path })?;
    }
    Ok(Ends {
        outs,
        haves: Vec::new(alloc),
        discards: Vec::new(alloc),
        ins: Vec::new(alloc),
    })
}

/// The input of port 3 comes from a file.
fn input_of(alloc: Global) -> Result<Ends, AllocError> {
    let path = String::from_str(alloc, "folder/in")?;
    let mut ins = Vec::new(alloc);
    ins.push(PortFile { port: 3, path })?;
    Ok(Ends {
        outs: Vec::new(alloc),
        haves: Vec::new(alloc),
        discards: Vec::new(alloc),
        ins,
    })
}

/// Why a file doesn't take the output of a port; none: it takes it.
fn refusal_of(alloc: Global, file: &mut FakeFile) -> Result<Option<EndFault>, AllocError> {
    let ends = ends_of(alloc)?;
    Ok(refusal_over(alloc, &ends, None, file))
}

/// Why ends aren't opened if one is this file, beside a device of these numbers.
fn refusal_over(
    alloc: Global,
    ends: &Ends,
    device: Option<FileNumbers>,
    file: &mut FakeFile,
) -> Option<EndFault> {
    let mut files = FakeFiles::new(file, Left(None));
    files.device = device;
    refusal_by(alloc, ends, &mut files)
}

/// Why ends aren't opened over such files.
fn refusal_by(alloc: Global, ends: &Ends, files: &mut FakeFiles<'_>) -> Option<EndFault> {
    let mut feed = Plain::new(Numbered::new(1, false));
    let mut out: Vec<u8> = Vec::new(alloc);
    let opened = open_ends_over(files, alloc, "device", ends, &mut feed, &mut out);
    opened.err()
}

/// What is no regular file takes no output, though it can be opened, measured and synced, as a disk can.
#[test]
fn a_disk_takes_no_output(rt: HostRuntime) -> Result<(), Fail> {
    let alloc = rt.alloc();
    let mut file = FakeFile::new(Vec::new(alloc));
    let taken = refusal_of(alloc, &mut file)?.is_none();
    file.is_regular = false;
    let refusal = refusal_of(alloc, &mut file)?;
    assert!(rt; taken && matches!(refusal, Some(EndFault::DeviceFailed(0))));
    Ok(())
}

/// A file has no part if the system doesn't tell which one it is: nothing would tell it from another end.
#[test]
fn a_file_whose_numbers_fail_has_no_part(rt: HostRuntime) -> Result<(), Fail> {
    let alloc = rt.alloc();
    let mut file = FakeFile::new(Vec::new(alloc));
    file.is_known = false;
    let output = refusal_over(alloc, &ends_of(alloc)?, None, &mut file);
    let input = refusal_over(alloc, &input_of(alloc)?, None, &mut file);
    assert!(rt; matches!(output, Some(EndFault::DeviceFailed(0))));
    assert!(rt; matches!(input, Some(EndFault::ReadFailed(3))));
    Ok(())
}

/// Numbers of a file.
const ONE: FileNumbers = FileNumbers { disk: 1, number: 2 };

/// Numbers of a file on another disk.
const OTHER: FileNumbers = FileNumbers { disk: 2, number: 2 };

/// What is opened as an output's file is no device, though nothing was seen at its path before.
#[test]
fn a_device_that_comes_to_stand_at_a_path_takes_no_output(rt: HostRuntime) -> Result<(), Fail> {
    let alloc = rt.alloc();
    let ends = ends_of(alloc)?;
    let mut file = FakeFile::new(Vec::new(alloc));
    file.numbers = Some(ONE);
    let refusal = refusal_over(alloc, &ends, Some(ONE), &mut file);
    assert!(rt; matches!(refusal, Some(EndFault::SameFile(0))) && file.synced == 0);
    assert!(rt; refusal_over(alloc, &ends, Some(OTHER), &mut file).is_none());
    Ok(())
}

/// Nor is it the file that standard input comes from, if a port takes that.
#[test]
fn a_file_that_is_read_takes_no_output(rt: HostRuntime) -> Result<(), Fail> {
    let alloc = rt.alloc();
    let mut ends = ends_of(alloc)?;
    let path = String::from_str(alloc, "-")?;
    ends.ins.push(PortFile { port: 3, path })?;
    let mut file = FakeFile::new(Vec::new(alloc));
    file.numbers = Some(ONE);
    let mut files = FakeFiles::new(&mut file, Left(None));
    files.input = Some(ONE);
    let refusal = refusal_by(alloc, &ends, &mut files);
    let mut files = FakeFiles::new(&mut file, Left(None));
    files.input = Some(OTHER);
    let beside = refusal_by(alloc, &ends, &mut files);
    assert!(rt; matches!(refusal, Some(EndFault::SameFile(0))) && beside.is_none());
    Ok(())
}

/// Why standard output doesn't take the output of port 2 if it and standard error are files of these numbers, if they are files; none: it
/// takes it.
fn refusal_of_standard(
    alloc: Global,
    output: Option<FileNumbers>,
    error: Option<FileNumbers>,
) -> Result<Option<EndFault>, AllocError> {
    let ends = outputs_to(alloc, &[(2, "-")])?;
    let mut file = FakeFile::new(Vec::new(alloc));
    let mut files = FakeFiles::new(&mut file, Left(None));
    (files.output, files.error) = (output, error);
    Ok(refusal_by(alloc, &ends, &mut files))
}

/// Nor does standard output take one if it and standard error are one file: what is said would be between the bytes, or over them. Two
/// files are no fault, nor is a terminal or a pipe.
#[test]
fn a_standard_output_that_is_said_over_takes_no_output(rt: HostRuntime) -> Result<(), Fail> {
    let alloc = rt.alloc();
    let one = refusal_of_standard(alloc, Some(ONE), Some(ONE))?;
    let two = refusal_of_standard(alloc, Some(ONE), Some(OTHER))?;
    let beside_a_terminal = refusal_of_standard(alloc, Some(ONE), None)?;
    let terminal = refusal_of_standard(alloc, None, None)?;
    assert!(rt; matches!(one, Some(EndFault::SameFile(2))));
    assert!(rt; two.is_none() && beside_a_terminal.is_none() && terminal.is_none());
    Ok(())
}

/// If the system says no numbers one path is one file: an output's that is the device's, or another output's, isn't opened.
#[test]
fn one_path_takes_no_output_twice(rt: HostRuntime) -> Result<(), Fail> {
    let alloc = rt.alloc();
    let mut file = FakeFile::new(Vec::new(alloc));
    let on_device = refusal_over(
        alloc,
        &outputs_to(alloc, &[(0, "device")])?,
        None,
        &mut file,
    );
    let twice = refusal_over(
        alloc,
        &outputs_to(alloc, &[(0, "out"), (1, "out")])?,
        None,
        &mut file,
    );
    assert!(rt; matches!(on_device, Some(EndFault::SameFile(0))));
    assert!(rt; matches!(twice, Some(EndFault::SameFile(1))) && file.synced == 0);
    Ok(())
}

/// The roots of two of the system's disks have one number, and aren't one file.
#[test]
fn files_of_two_disks_are_two(rt: HostRuntime) {
    assert!(rt; is_one_file(&rt, "/", "/."));
    assert!(rt; !is_one_file(&rt, "/proc", "/sys"));
}
