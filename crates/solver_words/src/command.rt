ghost use Rattle.std.specs.Prelude.{◌≡◌, ◌<◌, IfOk, MatchResult, map, drop, length, true, false, string_bytes};
ghost use Rattle.clap.specs.Walk.{rule_of};
ghost use Rattle.clap.specs.Simple.{app_of};
ghost use Rattle.solver_words.specs.Grammar.{line_of, is_well_formed};
ghost use Rattle.solver_words.specs.Commands.{arg_of, app_for, with_rules, syntax_of, texts, Tells, IsOutside};

use crate::command_syntax::CommandSyntax;
use crate::words_error::WordsError;
use clap::error::ErrorKind;
use clap::{Arg, ArgAction, ArgMatches, Command};
use std::alloc::{AllocError, Global};

/// How an argument is given: by its place, by its name and a value, or by its name alone.
#[derive(Clone, Copy)]
pub(crate) enum ArgKind {
    Positional,
    Valued,
    Flag,
}

fn new_arg<'a>(alloc: Global, name: &'a str, kind: ArgKind) -> Arg<'a>
    ensures rule { rule_of result ≡ arg_of kind name.entry.now }
    ensures own { result.global ≡ false }
{
    match kind {
        ArgKind::Positional => Arg::new(alloc, name).action(ArgAction::Set).required(true),
        ArgKind::Valued => Arg::new(alloc, name).long(name).action(ArgAction::Set),
        ArgKind::Flag => Arg::new(alloc, name).long(name).action(ArgAction::SetTrue),
    }
}

/// The command with these arguments after its own.
fn with_args<'a>(
    alloc: Global,
    mut command: Command<'a>,
    names: &'a [&'a str],
    kind: ArgKind,
) -> Result<Command<'a>, AllocError>
    ensures { IfOk result (λ c. app_of c ≡ with_rules (app_of command.entry) (map (arg_of kind) (texts names.entry.now))) }
{
    for name in names {
        command = command.arg(new_arg(alloc, *name, kind))?;
    }
    Ok(command)
}

/// The command that expects these words.
fn new_command<'a>(
    alloc: Global,
    name: &'a str,
    expected: &'a CommandSyntax,
) -> Result<Command<'a>, AllocError>
    ensures { IfOk result (λ c. app_of c ≡ app_for name.entry.now (syntax_of expected.entry.now)) }
{
    let bare = Command::new(alloc, name)
        .disable_help_flag(true)
        .disable_help_subcommand(true)
        .disable_version_flag(true);
    let command = with_args(alloc, bare, expected.positional, ArgKind::Positional)?;
    let command = with_args(alloc, command, expected.valued, ArgKind::Valued)?;
    with_args(alloc, command, expected.flags, ArgKind::Flag)
}

/// What `clap` makes of the words after the command, which is the first of them.
pub(crate) fn parse<'a>(
    alloc: Global,
    expected: &'a CommandSyntax,
    words: &'a [String],
) -> Result<ArgMatches<'a>, WordsError>
    requires names { is_well_formed (syntax_of expected.now) ≡ true }
    requires command { 0 < length words.now }
    ensures { MatchResult result
        (Tells (syntax_of expected.entry.now) (line_of (syntax_of expected.entry.now) (drop 1 (map string_bytes words.entry.now))))
        (IsOutside (line_of (syntax_of expected.entry.now) (drop 1 (map string_bytes words.entry.now)))) }
{
    let Ok(command) = new_command(alloc, "command", expected) else {
        return Err(WordsError::OutOfMemory);
    };
    match command.try_get_matches_from(words) {
        Ok(matches) => Ok(matches),
        Err(error) => match error.kind() {
            ErrorKind::OutOfMemory => Err(WordsError::OutOfMemory),
            _ => Err(WordsError::Usage),
        },
    }
}
