//! What a line says.
ghost use Rattle.std.specs.Prelude.{◌≡◌};
ghost use Rattle.mt_script.specs.Script.{words_of, command_of, said_by};

use crate::argument::{end, one, three, two};
use crate::command::Command;
use crate::fault::ScriptWhy;
use crate::word::first_word;

/// The command with this name and these arguments.
#[tactic(auto, using(crate::proofs::Counted::counted), unfolding(crate::specs::Script::command_of, crate::specs::Script::forms, crate::specs::Script::numbers_from))]
fn command(name: &[u8], arguments: &[u8]) -> Result<Command, ScriptWhy>
    ensures { result ≡ command_of name.now (words_of arguments.now) }
{
    if name == b"feed".as_slice() {
        let [frames] = one(1, arguments)?;
        Ok(Command::Feed(frames))
    } else if name == b"turn".as_slice() {
        let [server, turns] = two(0, 1, arguments)?;
        Ok(Command::Turn(server, turns))
    } else if name == b"split".as_slice() {
        let [group, from, to] = three(arguments)?;
        Ok(Command::Split(group, from, to))
    } else if name == b"merge".as_slice() {
        let [group, from, to] = three(arguments)?;
        Ok(Command::Merge(group, from, to))
    } else if name == b"step".as_slice() {
        let [steps] = one(1, arguments)?;
        Ok(Command::Step(steps))
    } else if name == b"drain".as_slice() {
        end(arguments)?;
        Ok(Command::Drain)
    } else if name == b"stats".as_slice() {
        end(arguments)?;
        Ok(Command::Stats)
    } else {
        Err(ScriptWhy::Unknown)
    }
}

/// What a line says: a command, or nothing where it has no word or its first word begins with `#`.
#[tactic(auto, unfolding(crate::specs::Script::said_by))]
pub(crate) fn command_in(line: &[u8]) -> Result<Option<Command>, ScriptWhy>
    ensures { result ≡ said_by (words_of line.now) }
{
    match first_word(line) {
        None => Ok(None),
        Some((name, arguments)) => {
            if name[0] == b'#' {
                Ok(None)
            } else {
                Ok(Some(command(name, arguments)?))
            }
        }
    }
}
