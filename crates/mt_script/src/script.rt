//! A whole script.
ghost use Rattle.std.specs.Prelude.{◌≡◌, ◌≤◌, ◌⊎◌, ◌++◌, length, IfOk, IfErr, OnOk};
ghost use Rattle.std.specs.Option.{option_to_list};
ghost use Rattle.mt_script.specs.Script.{commands_of};
ghost use Rattle.mt_script.specs.declared.fault.ScriptWhy.TheVariants.{NoMemory};

use crate::command::Command;
use crate::fault::ScriptFault;
use crate::line::first_line;
use crate::reading::command_in;
use std::alloc::{AllocError, Global};

/// Adds the command of a line, if it has one.
fn push_found(commands: &mut Vec<Command>, found: Option<Command>) -> Result<(), AllocError>
    ensures { OnOk result (commands.new.items ≡ commands.old.items ++ option_to_list found) }
{
    match found {
        Some(command) => {
            commands.push(command)?;
            Ok(())
        }
        None => Ok(()),
    }
}

/// The commands of a script in the order of its lines, or the first fault. Memory is taken for the list of
/// commands alone.
pub fn parse(alloc: Global, text: &[u8]) -> Result<Vec<Command>, ScriptFault>
    requires { length text.now ≤ 1048576 }
    ensures commands { IfOk result (λ commands. commands_of text.now ≡ Ok commands.items) }
    ensures fault { IfErr result (λ fault. (fault.why ≡ NoMemory) ⊎ (commands_of text.now ≡ Err fault)) }
    ensures few { IfOk result (λ commands. length commands.items ≤ length text.now) }
{
    let mut commands = Vec::new(alloc);
    let mut rest = text;
    let mut line = 1u32;
    while !rest.is_empty() {
        let (first, after) = first_line(rest);
        let found = match command_in(first) {
            Ok(found) => found,
            Err(why) => return Err(ScriptFault { line, why }),
        };
        push_found(&mut commands, found)?;
        rest = after;
        line += 1;
    }
    Ok(commands)
}
