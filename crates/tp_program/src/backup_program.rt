//! What the program does for a command line of `backup`.

ghost use Rattle.std.specs.Prelude.{◌≡◌, ◌≤◌, string_bytes};
ghost use Rattle.tp_program.specs.Backups.{PrintsCopied};
ghost use Rattle.tp_program.specs.Uses.{HasBackup, part_of};

use crate::backup_explain::explain_backup;
use crate::backup_files::{backup_file, refuse_undone};
use crate::devices::Devices;
use crate::program::{prints_into, refuse_output};
use std::fs::{Files, OpenFile};
use std::io::Write;
use std::os::unix::fs::FileExt;
use tp_disk::Disk;
use tp_stream_files::StandardStreams;
use tp_words::Backup;

/// Makes the copy that is asked for, and says so, or why there is none; if `explains` is true, it says more. Answers the program's status: 0 if the
/// copy is made and that was printed, 1 if it was refused, 2 if standard output is the file of the device. In that last case it opens no other file.
pub(crate) fn answer_backup<
    R: Files<File = F> + StandardStreams + AllocGlobal,
    F: FileExt + OpenFile + Drop,
    S: Devices<Device = D, New = N>,
    D: Disk + Drop,
    N: Disk + Drop,
    O: Write,
    E: Write,
>(rt: &R, devices: &mut S, backup: &Backup, explains: bool, out: &mut O, err: &mut E) -> u8
    ensures few { result ≤ 2 }
    ensures printed { result ≡ 0 → PrintsCopied (O.contents out.old) (O.contents out.new) }
    ensures made { result ≡ 0 → HasBackup (string_bytes backup.now.device) (part_of (string_bytes backup.now.copy)) (string_bytes backup.now.copy) (S.uses devices.old) (S.uses devices.new) (O.contents out.old) (O.contents out.new) }
    ensures uncalled { S.calls devices.new ≡ S.calls devices.old }
{
    if prints_into(rt, backup.device.as_str()) {
        return refuse_output(err);
    }
    let Err(undone) = backup_file(rt, devices, backup, out, err) else {
        return 0;
    };
    let status = refuse_undone(err, &undone);
    if explains {
        explain_backup(rt, backup, &undone, err);
    }
    status
}
