//! What is said if the words of the command line can't be taken.

ghost use Rattle.std.specs.Prelude.{◌≡◌};
ghost use Rattle.std.specs.IoError.{error_kind};
ghost use Rattle.tp_program.specs.Named.{no_memory_line, unspelt_line};

use std::io;
use std::io::ErrorKind;

/// Gives the line that says why the words can't be taken, for an error of the system.
pub fn words_refusal(error: &io::Error) -> &'static str
    ensures memory { error_kind error.now ≡ ErrorKind.OutOfMemory → result.now ≡ no_memory_line }
    ensures unspelt { (error_kind error.now ≡ ErrorKind.OutOfMemory → ⊥) → result.now ≡ unspelt_line }
{
    match error.kind() {
        ErrorKind::OutOfMemory => "tpnet: Memory\n",
        _ => "tpnet: a word isn't UTF-8; rename the file, or go to its folder\n",
    }
}
