//! The command as `clap` sees it: its options, each with one value.

ghost use Rattle.std.specs.Prelude.{◌≡◌, IfOk, option_map, false};
ghost use Rattle.clap.specs.Words.{app_of, found_of, first_of, rows_of, with_rule};
ghost use Rattle.osc_cli.specs.Command.{command, ruled};

use crate::table::{
    BATCH, FRAMES, HARTS, HEAP, JOURNAL, LEVELS, LIMIT, MODE, NUMBER, PICKS, PROCESSES, SEED,
    SHADOWS,
};
use clap::{Arg, ArgMatches, Command};
use std::alloc::{AllocError, Global};

/// The command with each option of the table.
pub(crate) fn command_of<'a>(alloc: Global) -> Result<Command<'a>, AllocError>
    ensures { IfOk result (λ made. app_of made ≡ command) }
{
    let made = Command::new(alloc, "oscar");
    let made = with_option(alloc, made, MODE)?;
    let made = with_option(alloc, made, HEAP)?;
    let made = with_option(alloc, made, HARTS.name)?;
    let made = with_option(alloc, made, PROCESSES.name)?;
    let made = with_option(alloc, made, FRAMES.name)?;
    let made = with_option(alloc, made, SHADOWS.name)?;
    let made = with_option(alloc, made, JOURNAL.name)?;
    let made = with_option(alloc, made, SEED.name)?;
    let made = with_option(alloc, made, PICKS.name)?;
    let made = with_option(alloc, made, LIMIT.name)?;
    let made = with_option(alloc, made, NUMBER.name)?;
    let made = with_option(alloc, made, LEVELS.name)?;
    with_option(alloc, made, BATCH.name)
}

/// The command with one more option, which has a long name and one value.
fn with_option<'a>(
    alloc: Global,
    made: Command<'a>,
    name: &'a str,
) -> Result<Command<'a>, AllocError>
    ensures { IfOk result (λ more. app_of more ≡ with_rule (app_of made.entry) (ruled name.entry.now)) }
{
    made.arg(Arg::new(alloc, name).long(name))
}

/// The text that the words give to an option.
pub(crate) fn text_of<'a>(matches: &ArgMatches<'a>, name: &str) -> Option<&'a str>
    ensures { option_map (λ text. text.now) result ≡ first_of name.now (rows_of (found_of matches.now)) }
{
    matches.get_str(name)
}
