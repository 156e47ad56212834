//! The words as clap reads them: one command line, with a subcommand for each of bridge's commands. It has no default,
//! no parser of values and no rule between options, so that clap's own contract says exactly which words it takes.
ghost use Rattle.std.specs.Prelude.{◌≡◌, IfOk, MatchOption, None, Some, map, string_bytes};
ghost use Rattle.clap.specs.Words.{FailsBy, subcommand_rows_of};
ghost use Rattle.bridge_words.specs.Values.{rows_in};
ghost use Rattle.clap.specs.Simple.{App, new_app, with_subcommand};
ghost use Rattle.bridge_words.specs.Grammar.{IsApp, word, option, flag, top_app, format_app, list_app, replay_app, drain_app, load_app, serve_app, move_app, bridge_app, refusals, named};

use clap::{Arg, ArgAction, ArgMatches, Command, Error};
use std::alloc::{AllocError, Global};

// Each of these functions passes on the want of memory that an earlier one met, so that a command is built by calls in turn.

// A command of this name, which has no words yet.
fn command_named<'a>(alloc: Global, name: &'a str) -> Result<Command<'a>, AllocError>
    ensures { IfOk result (IsApp (new_app name.now)) }
{
    Ok(Command::new(alloc, name))
}

// The command with one word more, which must stand or may.
fn with_word<'a>(
    alloc: Global,
    command: Result<Command<'a>, AllocError>,
    name: &'a str,
    is_needed: bool,
) -> Result<Command<'a>, AllocError>
    ensures { (app : App) → IfOk command.entry (IsApp app) → IfOk result (IsApp (word is_needed name.now app)) }
{
    let command = command?;
    let word = Arg::new(alloc, name).required(is_needed);
    command.arg(word)
}

// The command with one option more, which has a value.
fn with_option<'a>(
    alloc: Global,
    command: Result<Command<'a>, AllocError>,
    name: &'a str,
) -> Result<Command<'a>, AllocError>
    ensures { (app : App) → IfOk command.entry (IsApp app) → IfOk result (IsApp (option name.now app)) }
{
    let command = command?;
    let option = Arg::new(alloc, name).long(name);
    command.arg(option)
}

// The command with one option more, which has no value.
fn with_flag<'a>(
    alloc: Global,
    command: Result<Command<'a>, AllocError>,
    name: &'a str,
) -> Result<Command<'a>, AllocError>
    ensures { (app : App) → IfOk command.entry (IsApp app) → IfOk result (IsApp (flag name.now app)) }
{
    let command = command?;
    let flag = Arg::new(alloc, name).long(name).action(ArgAction::SetTrue);
    command.arg(flag)
}

// The command line with one command more.
fn with_command<'a>(
    bridge: Result<Command<'a>, AllocError>,
    command: Result<Command<'a>, AllocError>,
) -> Result<Command<'a>, AllocError>
    ensures { (app added : App) → IfOk bridge.entry (IsApp app) → IfOk command.entry (IsApp added) → IfOk result (IsApp (with_subcommand app added.top)) }
{
    let bridge = bridge?;
    let command = command?;
    bridge.subcommand(command)
}

// `format SLOTS SIZE`
fn format_words<'a>(alloc: Global) -> Result<Command<'a>, AllocError>
    ensures { IfOk result (IsApp format_app) }
{
    let format = command_named(alloc, "format");
    let format = with_word(alloc, format, "slots", true);
    with_word(alloc, format, "size", true)
}

// `list [--as FORM]`
fn list_words<'a>(alloc: Global) -> Result<Command<'a>, AllocError>
    ensures { IfOk result (IsApp list_app) }
{
    let list = command_named(alloc, "list");
    with_option(alloc, list, "as")
}

// `replay PROTO [--token G] [--ack-token G]`
fn replay_words<'a>(alloc: Global) -> Result<Command<'a>, AllocError>
    ensures { IfOk result (IsApp replay_app) }
{
    let replay = command_named(alloc, "replay");
    let replay = with_word(alloc, replay, "proto", true);
    let replay = with_option(alloc, replay, "token");
    with_option(alloc, replay, "ack-token")
}

// `drain PROTO [PLACE] [--out-token G] [--out-channel G] [--polls N]`
fn drain_words<'a>(alloc: Global) -> Result<Command<'a>, AllocError>
    ensures { IfOk result (IsApp drain_app) }
{
    let drain = command_named(alloc, "drain");
    let drain = with_word(alloc, drain, "proto", true);
    let drain = with_word(alloc, drain, "place", false);
    let drain = with_option(alloc, drain, "out-token");
    let drain = with_option(alloc, drain, "out-channel");
    with_option(alloc, drain, "polls")
}

// `load PROTO NUMBER COUNT`
fn load_words<'a>(alloc: Global) -> Result<Command<'a>, AllocError>
    ensures { IfOk result (IsApp load_app) }
{
    let load = command_named(alloc, "load");
    let load = with_word(alloc, load, "proto", true);
    let load = with_word(alloc, load, "number", true);
    with_word(alloc, load, "count", true)
}

// `serve [--relp P] [--lumberjack P] [--hec P] [--status P] [--workers N] [--connections N] [--talks N] [--token G]
// [--ack-token G] [--tokens LIST] [--group] [--forward PROTO] [--to P] [--out-token G] [--out-channel G] [--polls N]`
fn serve_words<'a>(alloc: Global) -> Result<Command<'a>, AllocError>
    ensures { IfOk result (IsApp serve_app) }
{
    let serve = command_named(alloc, "serve");
    let serve = with_option(alloc, serve, "relp");
    let serve = with_option(alloc, serve, "lumberjack");
    let serve = with_option(alloc, serve, "hec");
    let serve = with_option(alloc, serve, "status");
    let serve = with_option(alloc, serve, "workers");
    let serve = with_option(alloc, serve, "connections");
    let serve = with_option(alloc, serve, "talks");
    let serve = with_option(alloc, serve, "token");
    let serve = with_option(alloc, serve, "ack-token");
    let serve = with_option(alloc, serve, "tokens");
    let serve = with_flag(alloc, serve, "group");
    let serve = with_option(alloc, serve, "forward");
    let serve = with_option(alloc, serve, "to");
    let serve = with_option(alloc, serve, "out-token");
    let serve = with_option(alloc, serve, "out-channel");
    with_option(alloc, serve, "polls")
}

// `move TARGET TAG`
fn move_words<'a>(alloc: Global) -> Result<Command<'a>, AllocError>
    ensures { IfOk result (IsApp move_app) }
{
    let pair = command_named(alloc, "move");
    let pair = with_word(alloc, pair, "target", true);
    with_word(alloc, pair, "tag", true)
}

// The command line without its commands.
fn top_words<'a>(alloc: Global) -> Result<Command<'a>, AllocError>
    ensures { IfOk result (IsApp top_app) }
{
    let bridge = Command::new(alloc, "bridge")
        .no_binary_name(true)
        .disable_help_flag(true)
        .disable_help_subcommand(true)
        .disable_version_flag(true)
        .subcommand_required(true);
    Ok(bridge)
}

// The whole command line.
fn whole_words<'a>(alloc: Global) -> Result<Command<'a>, AllocError>
    ensures { IfOk result (IsApp bridge_app) }
{
    let bridge = top_words(alloc);
    let bridge = with_command(bridge, format_words(alloc));
    let bridge = with_command(bridge, list_words(alloc));
    let bridge = with_command(bridge, replay_words(alloc));
    let bridge = with_command(bridge, drain_words(alloc));
    let bridge = with_command(bridge, load_words(alloc));
    let bridge = with_command(bridge, serve_words(alloc));
    with_command(bridge, move_words(alloc))
}

/// What clap finds in the words. Its error has one of the kinds that are wrong with them, or memory ran out.
pub(crate) fn parse<'a>(alloc: Global, words: &'a [String]) -> Result<ArgMatches<'a>, Error>
    ensures refusals { FailsBy (refusals (map string_bytes words.entry.now)) result }
    ensures named { IfOk result (λ matches. subcommand_rows_of matches ≡ named (map string_bytes words.entry.now)) }
{
    let bridge = whole_words(alloc)?;
    bridge.try_get_matches_from(words)
}

/// The name of the command that was found, and what was found of its words.
pub(crate) fn found<'m, 'a>(matches: &'m ArgMatches<'a>) -> Option<(&'a str, &'m ArgMatches<'a>)>
    ensures { MatchOption result (subcommand_rows_of matches.now ≡ None) (λ p. subcommand_rows_of matches.now ≡ Some (p.0.now, rows_in p.1.now)) }
{
    matches.subcommand()
}
