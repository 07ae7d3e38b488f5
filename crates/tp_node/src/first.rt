//! What a token puts into memory.

ghost use Rattle.std.specs.Prelude.{◌≡◌, ◌++◌, Some, IsSome, OnOk, OnErr};
ghost use Rattle.tp_model.specs.SharedPages.{LacksFrames, word_ranges};
ghost use Rattle.tp_node.specs.First.{stored_behind, put_ranges};
ghost use Rattle.tp_node.specs.LinkEnds.{kept_done};

use crate::fault::NoFrame;
use tp_mem::{Mem, WriteFault};

/// What a token puts into memory, before the process is queued that it concerns.
#[derive(Clone, Copy)]
pub(crate) enum First {
    Nothing,
    Byte { address: u32, byte: u8 },
    Word { address: u32, word: u32 },
}

impl First {
    /// Puts it into memory, and then writes a word, if there is one. `NoFrame`, and nothing changes, if a frame is missing.
    pub(crate) fn store<M: Mem>(self, mem: &mut M, behind: &[(u32, u32)]) -> Result<(), NoFrame>
        requires { IsSome (stored_behind self behind.now (M.bytes mem.old)) }
        ensures ok { OnOk result (stored_behind self behind.now (M.bytes mem.old) ≡ Some (M.bytes mem.new)) }
        ensures err { OnErr result (M.bytes mem.new ≡ M.bytes mem.old) }
        ensures kept { M.kept mem.new ≡ kept_done result (M.kept mem.old) (put_ranges self ++ word_ranges behind.now) }
        ensures refusal { OnErr result (LacksFrames (M.kept mem.old) (put_ranges self ++ word_ranges behind.now)) }
    {
        let written = match self {
            First::Nothing => mem.write_words(behind),
            First::Byte { address, byte } => mem.change_byte(address, byte, behind),
            First::Word { address, word } => mem.change_after((address, word), 0, 0, 0, behind),
        };
        match written {
            Ok(()) => Ok(()),
            Err(WriteFault::NoFrame) => Err(NoFrame),
            Err(WriteFault::Outside) => unreachable!(),
        }
    }
}
