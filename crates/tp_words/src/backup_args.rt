//! What a command line of `backup` asks for.

ghost use Rattle.std.specs.Prelude.{◌≡◌, IfErr, IfOk, map};
ghost use Rattle.tp_words.specs.BackupArgs.{HasBackupPlaces};
ghost use Rattle.tp_words.specs.Places.{IsTakenAs};
ghost use Rattle.tp_words.specs.Refused.{IsRefusedAs};
ghost use Rattle.tp_words.specs.declared.words.Name.TheVariants as of;

use crate::arg_fault::ArgFault;
use crate::found::pair;
use std::alloc::Global;

/// A copy of a device that is to be made: the device's file, and the copy's, which doesn't exist yet.
#[derive(Drop)]
pub struct Backup {
    pub device: String,
    pub copy: String,
}

/// The copy that a line asks for.
pub fn backup_of(alloc: Global, words: &[String], places: &[&str]) -> Result<Backup, ArgFault>
    requires { IsTakenAs words.now of.Backup (map (λ place. place.now) places.now) }
    ensures places { IfOk result (HasBackupPlaces words.now) }
    ensures refused { IfErr result (IsRefusedAs of.Backup words.now (map (λ place. place.now) places.now)) }
{
    let Some((device, copy)) = pair(places) else {
        return Err(ArgFault::Missing);
    };
    Ok(Backup {
        device: String::from_str(alloc, device)?,
        copy: String::from_str(alloc, copy)?,
    })
}
