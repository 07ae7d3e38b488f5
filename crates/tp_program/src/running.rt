//! `tpnet run`, over any device.

ghost use Rattle.std.specs.Prelude.{◌≡◌, ◌≤◌, ◌<◌, true, IsErr};
ghost use Rattle.tp_program.specs.Lower.{AreTrue, verdict, MAX_STEPS, LeavesNothingNew, History, MAX_WORKERS, IsRun, Steps};
ghost use Rattle.tp_program.specs.Running.{RanAs, job_of, status_of};

use std::alloc::Global;
use std::io::Write;
use std::sync::Wait;
use std::thread::Threads;
use tp_disk::Disk;
use tp_run::{Job, Outlet, Rest, RunFault, run};
use tp_words::Run;

/// Gives the job of a run. If a number that was typed is above what any device has, it is the greatest of its kind.
#[tactic(auto, unfolding(tp_words::specs::Args::IsRun))]
fn job_of(asked: &Run) -> Job
    requires { IsRun asked.now }
    ensures value { result ≡ job_of asked.now }
    ensures workers { (0 < result.workers) × (result.workers ≤ MAX_WORKERS) }
    ensures quantum { (0 < result.quantum) × (result.quantum ≤ MAX_STEPS) }
{
    Job {
        turns: asked.turns,
        workers: asked.workers,
        quantum: asked.quantum,
        spare: asked.spare.min(u16::MAX as u64) as u16,
        every: asked.every,
        port: asked.port.min(u8::MAX as u64) as u8,
    }
}

/// Says that the device has no such node or port.
fn is_not_there<E: Write>(err: &mut E, what: &str) -> u8
    ensures { result ≡ 2 }
{
    let _ = write!(err, "tpnet: {what}\n");
    2
}

/// Says why a run was refused. Answers the status. Ignores a failed write.
fn refuse_run<E: Write>(err: &mut E, fault: RunFault) -> u8
    ensures { result ≡ 1 }
{
    let _ = write!(err, "tpnet: {fault}\n");
    1
}

/// Gives what is said after the number of the next entry, by what is left to do.
fn word_of(rest: Rest) -> &'static str {
    match rest {
        Rest::Halted => " halted",
        Rest::Quiet => " quiet",
        Rest::Busy => "",
    }
}

/// Says on standard error what came of a run. Answers the status. Ignores a failed write.
fn report<E: Write>(err: &mut E, done: Result<u64, RunFault>, rest: Rest) -> u8
    ensures { result ≡ status_of done }
{
    match done {
        Ok(next) => {
            let _ = write!(err, "next {next}{}\n", word_of(rest));
            0
        }
        Err(RunFault::Spare) => is_not_there(
            err,
            "--spare is above the pages of a node; see tpnet node",
        ),
        Err(RunFault::Port) => is_not_there(err, "the device has no such port; see tpnet show"),
        Err(fault) => refuse_run(err, fault),
    }
}

/// `tpnet run`, on a device. It hands in what the port hasn't accepted of `input`, lets workers make the turns, keeps the journal, and prints and
/// confirms what the port shows. On standard error it says which number the next entry gets, and whether each node has halted, or nothing is left to
/// do. Answers the device, and the program's status: 0 if that was done, 2 if `--spare` is above a node's pages or the port doesn't exist, else 1.
/// After status 2, or if a device doesn't open, it is as it was, and nothing is printed.
pub fn run_on<D: Disk + Drop + Send, O: Outlet<D>, E: Write, R: Threads + Wait + Sync>(
    rt: &R,
    alloc: Global,
    asked: &Run,
    disk: D,
    input: &[u8],
    out: &mut O,
    err: &mut E,
) -> (D, u8)
    ghost history: { History }
    requires range { IsRun asked.now }
    requires allowed { Steps → D.writable ≡ true }
    ensures status { result.1 ≤ 2 }
    ensures size { D.size_of result.0 ≡ D.size_of disk }
    ensures ran { RanAs history (job_of asked.now) input.now (D.state disk) (D.state result.0) (D.reads result.0) (O.value out.old) (O.value out.new) result.1 }
    ensures words { result.1 ≡ 2 → LeavesNothingNew (D.state disk) (D.state result.0) × (O.value out.new ≡ O.value out.old) }
    ensures unopened { AreTrue (D.reads result.0) → IsErr (verdict (D.state disk).now.bytes) → (result.1 ≡ 1) × LeavesNothingNew (D.state disk) (D.state result.0) × (O.value out.new ≡ O.value out.old) }
{
    let job = job_of(asked);
    let (disk, done, rest) = run(rt, alloc, job, disk, input, out);
    (disk, report(err, done, rest))
}
