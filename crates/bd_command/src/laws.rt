//! What follows from the encodings of commands.

ghost use Rattle.std.specs.Prelude.{◌≡◌, ◌≤◌, length};
ghost use Rattle.bd_wire.specs.Encoding.{IsPrefixFree};
ghost use Rattle.bd_command.specs.Log.{IsLogged, log_record, record_limit};
ghost use Rattle.bd_command.specs.declared.Command.{Command};

use crate::log::MAX_RECORD;

/// No log record begins another one, so what was written is read again, whatever follows it.
pub fn log_records_are_prefix_free()
    ensures { IsPrefixFree IsLogged log_record }
{}

/// A log record has at most 2,571 bytes.
pub fn log_records_fit()
    ensures limit { MAX_RECORD ≡ record_limit }
    ensures fit { (command : Command) → IsLogged command
        → length (log_record command) ≤ record_limit }
{}
