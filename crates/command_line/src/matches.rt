//! The options and files as clap knows them, and what clap finds in the words.
ghost use Rattle.std.specs.Prelude.{◌≡◌, IfOk, codes, false, option_map};
ghost use Rattle.clap.specs.Words.{app_of, rule_of};
ghost use Rattle.command_line.specs.Matches.{AreUtf8, bare_app, files_rule, first_app, flag_rule, texts_in, told_app, uses_in, valued_app, valued_rule, values_in};
ghost use Rattle.command_line.specs.Words.{uses_named};

use cell_core::Memory;
use clap::error::ErrorKind;
use clap::{Arg, ArgAction, ArgMatches, Command};
use std::alloc::{AllocError, Global};

/// An option with a value. The reader of its values checks how often it is used.
fn valued<'a>(alloc: Global, name: &'a str) -> Arg<'a>
    ensures rule { rule_of result ≡ valued_rule name.entry.now }
    ensures own { result.global ≡ false }
{
    Arg::new(alloc, name).long(name).action(ArgAction::Append)
}

/// An option without a value; each use counts as the value `on`.
fn flag<'a>(alloc: Global, name: &'a str) -> Arg<'a>
    ensures rule { rule_of result ≡ flag_rule name.entry.now }
    ensures own { result.global ≡ false }
{
    Arg::new(alloc, name)
        .long(name)
        .action(ArgAction::Append)
        .num_args(0)
        .default_missing_value("on")
}

/// The files, each of them a use of the argument.
fn files<'a>(alloc: Global) -> Arg<'a>
    ensures rule { rule_of result ≡ files_rule }
    ensures own { result.global ≡ false }
{
    Arg::new(alloc, "files").action(ArgAction::Append)
}

/// A command without help and version. No name of a program comes before its words.
fn bare<'a>(alloc: Global) -> Command<'a>
    ensures { app_of result ≡ bare_app }
{
    Command::new(alloc, "run")
        .no_binary_name(true)
        .disable_help_flag(true)
        .disable_version_flag(true)
}

/// The command with the first options that have a value.
fn first_command<'a>(alloc: Global) -> Result<Command<'a>, AllocError>
    ensures { IfOk result (λ command. app_of command ≡ first_app) }
{
    bare(alloc)
        .arg(valued(alloc, "workers"))?
        .arg(valued(alloc, "budget"))?
        .arg(valued(alloc, "evict"))
}

/// The command with all options that have a value.
fn valued_command<'a>(alloc: Global) -> Result<Command<'a>, AllocError>
    ensures { IfOk result (λ command. app_of command ≡ valued_app) }
{
    first_command(alloc)?
        .arg(valued(alloc, "admit"))?
        .arg(valued(alloc, "credits"))?
        .arg(valued(alloc, "weights"))
}

/// The command with its arguments, for the words after its name.
fn told<'a>(alloc: Global) -> Result<Command<'a>, AllocError>
    ensures { IfOk result (λ command. app_of command ≡ told_app) }
{
    valued_command(alloc)?
        .arg(flag(alloc, "events"))?
        .arg(files(alloc))
}

/// The values that clap finds in the words under each name, if it takes them.
pub(crate) fn found<'a>(
    alloc: Global,
    words: &'a [&'a str],
) -> Result<Option<ArgMatches<'a>>, Memory>
    requires utf8 { AreUtf8 words.now }
    ensures { IfOk result (λ found. option_map uses_in found ≡ uses_named (texts_in words.entry.now)) }
{
    match told(alloc)?.try_get_matches_from(words) {
        Ok(matches) => Ok(Some(matches)),
        Err(error) => match error.kind() {
            ErrorKind::OutOfMemory => Err(Memory),
            _ => Ok(None),
        },
    }
}

/// The values that clap found under a name.
pub(crate) fn values<'a>(
    alloc: Global,
    matches: &ArgMatches<'a>,
    name: &str,
) -> Result<Vec<&'a str>, Memory>
    ensures { IfOk result (λ texts. texts_in texts.items ≡ values_in matches.now name.now) }
{
    let mut texts = Vec::new(alloc);
    if let Some(found) = matches.get_strs(name) {
        texts.extend_from_slice(found)?;
    }
    Ok(texts)
}
