//! The commands of a program.
ghost use Rattle.std.specs.Prelude.{◌≡◌, ◌≢◌, ◌+◌, List, map, IfOk, IfErr, IfSome, IfNone, Contains};
ghost use Rattle.std.specs.String.{string_bytes};
ghost use Rattle.command_line.specs.Table.{Commanded, commanded, AreCommands, IsCommandLine, IsCommanded, IsBadAt};

use crate::name::Name;
use crate::pairs::judge;

/// A command and the names that may follow it.
#[derive(Clone, Copy, Debug)]
pub struct Command<'a> {
    pub word: &'a str,
    pub names: &'a [Name<'a>],
}

/// The command that the words ask for and the words after it, where these are pairs of its names, or else the place, from 1, of
/// the first word that can't stand there, or one past the last where more are needed.
pub fn judge_command<'w, 'a, 'b>(
    words: &'w [String],
    commands: &'a [Command<'b>],
) -> Result<(&'a Command<'b>, &'w [String]), u64>
    requires { AreCommands (map commanded commands.now) }
    ensures ok { IfOk result (λ asked. IsCommandLine (map commanded commands.now) (map string_bytes words.now) (commanded asked.0.now) (map string_bytes asked.1.now)) }
    ensures err { IfErr result (λ at. IsBadAt (IsCommanded (map commanded commands.now)) (map string_bytes words.now) at) }
{
    let Some((first, rest)) = words.split_first() else {
        return Err(1);
    };
    let Some(command) = find_command(commands, first.as_str()) else {
        return Err(1);
    };
    match judge(rest, command.names) {
        Ok(()) => Ok((command, rest)),
        Err(at) => Err(at + 1),
    }
}

/// The command that is this word.
fn find_command<'a, 'b>(commands: &'a [Command<'b>], word: &str) -> Option<&'a Command<'b>>
    ensures some { IfSome result (λ command. Contains (map commanded commands.now) (commanded command.now) × (command.now.word.now ≡ word.now)) }
    ensures none { IfNone result ((command : Commanded) → Contains (map commanded commands.now) command → command.word ≢ word.now) }
{
    for command in commands {
        if command.word == word {
            return Some(command);
        }
    }
    None
}
