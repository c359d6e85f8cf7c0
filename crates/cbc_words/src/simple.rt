//! The command line of the program, for clap.
ghost use Rattle.std.specs.Prelude.{◌≡◌, IfOk};
ghost use Rattle.clap.specs.Words.{app_of};
ghost use Rattle.cbc_words.specs.SimpleCommand.{simple_command};

use clap::{Arg, ArgAction, Command};
use std::alloc::{AllocError, Global};

/// One word ACTION, one or more words REST, `--budget N` and `--json`, in words that don't begin with the program's name.
/// The only error is want of memory.
pub(crate) fn simple_command<'a>(alloc: Global) -> Result<Command<'a>, AllocError>
    ensures { IfOk result (λ made. app_of made ≡ simple_command) }
{
    let action = Arg::new(alloc, "ACTION")
        .required(true)
        .action(ArgAction::Set);
    let rest = Arg::new(alloc, "REST").required(true).num_args(1..);
    let budget = Arg::new(alloc, "budget").long("budget");
    let json = Arg::new(alloc, "json")
        .long("json")
        .action(ArgAction::SetTrue);
    let made = Command::new(alloc, "cbc")
        .no_binary_name(true)
        .arg(action)?
        .arg(rest)?
        .arg(budget)?
        .arg(json)?;
    Ok(made)
}
