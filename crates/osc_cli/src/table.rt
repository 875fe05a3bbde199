//! The table of the options, in the order in which their texts are looked at.

ghost use Rattle.std.specs.Prelude.{◌≡◌, ◌==◌, ◌≤◌, slice_index, IfOk, IfSome, MatchResult, Some, None, option_map};
ghost use Rattle.clap.specs.Words.{found_of, first_of, rows_of};
ghost use Rattle.osc_cli.specs.Command.{name_at};
ghost use Rattle.osc_cli.specs.Numbers as numbers;
ghost use Rattle.osc_cli.specs.declared.task.WordsFault.TheVariants as fault;

use crate::WordsFault;
use crate::command::text_of;
use clap::ArgMatches;
use osc_word::OptionNo;

/// The option of the mode, the first of the table.
pub(crate) const MODE: &str = "mode";

/// The option of the heap, the second.
pub(crate) const HEAP: &str = "heap";

/// An option whose value is a number.
#[derive(Clone, Copy)]
pub(crate) struct NumberOption {
    pub(crate) name: &'static str,
    /// Its place in the table.
    place: OptionNo,
    least: u64,
    most: u64,
    /// Its number where the words do not give it.
    otherwise: u64,
}

pub(crate) const HARTS: NumberOption = NumberOption {
    name: "harts",
    place: 2,
    least: 1,
    most: 8,
    otherwise: 4,
};

pub(crate) const PROCESSES: NumberOption = NumberOption {
    name: "processes",
    place: 3,
    least: 1,
    most: 64,
    otherwise: 16,
};

pub(crate) const FRAMES: NumberOption = NumberOption {
    name: "frames",
    place: 4,
    least: 64,
    most: 4096,
    otherwise: 1024,
};

pub(crate) const SHADOWS: NumberOption = NumberOption {
    name: "shadows",
    place: 5,
    least: 1,
    most: 1_048_576,
    otherwise: 65_536,
};

pub(crate) const JOURNAL: NumberOption = NumberOption {
    name: "journal",
    place: 6,
    least: 1,
    most: 1_048_576,
    otherwise: 65_536,
};

pub(crate) const SEED: NumberOption = NumberOption {
    name: "seed",
    place: 7,
    least: 0,
    most: u64::MAX,
    otherwise: 1,
};

pub(crate) const PICKS: NumberOption = NumberOption {
    name: "picks",
    place: 8,
    least: 0,
    most: 1 << 40,
    otherwise: 100_000_000,
};

pub(crate) const LIMIT: NumberOption = NumberOption {
    name: "limit",
    place: 9,
    least: 1,
    most: 1 << 40,
    otherwise: 100_000_000,
};

pub(crate) const NUMBER: NumberOption = NumberOption {
    name: "number",
    place: 10,
    least: 0,
    most: u64::MAX,
    otherwise: 1,
};

pub(crate) const LEVELS: NumberOption = NumberOption {
    name: "levels",
    place: 11,
    least: 3,
    most: 4,
    otherwise: 3,
};

pub(crate) const BATCH: NumberOption = NumberOption {
    name: "batch",
    place: 12,
    least: 1,
    most: 64,
    otherwise: 1,
};

/// The name of the option with this place in the table, which is below 13.
pub fn option_name(place: OptionNo) -> &'static str
    ensures { result.now ≡ name_at place }
{
    match place {
        0 => MODE,
        1 => HEAP,
        2 => HARTS.name,
        3 => PROCESSES.name,
        4 => FRAMES.name,
        5 => SHADOWS.name,
        6 => JOURNAL.name,
        7 => SEED.name,
        8 => PICKS.name,
        9 => LIMIT.name,
        10 => NUMBER.name,
        11 => LEVELS.name,
        12 => BATCH.name,
        _ => "",
    }
}

/// Whether a sign stands before the digits that `parse` would pass over.
fn has_plus(text: &str) -> bool
    ensures { result ≡ (slice_index text.now 0 == 43) }
{
    text.starts_with('+')
}

/// The number that a text of 1 to 20 decimal digits writes, below 2^64. Zeros may lead.
fn number_of(text: &str) -> Option<u64>
    ensures { result ≡ numbers.number_of text.now }
{
    if text.len() > 20 || has_plus(text) {
        return None;
    }
    text.parse().ok()
}

impl NumberOption {
    /// The number of a text, where it is in the range.
    #[tactic(auto, unfolding(crate::specs::Numbers::number_in))]
    fn number_in(&self, text: &str) -> Option<u64>
        ensures value { result ≡ numbers.number_in self.now.least self.now.most text.now }
        ensures range { IfSome result (λ number. (self.now.least ≤ number) × (number ≤ self.now.most)) }
    {
        match number_of(text) {
            Some(number) if self.least <= number && number <= self.most => Some(number),
            _ => None,
        }
    }

    /// The number that the words give to this option, or the one that it has without.
    pub(crate) fn read(&self, matches: &ArgMatches<'_>) -> Result<u64, WordsFault>
        requires { (self.now.least ≤ self.now.otherwise) × (self.now.otherwise ≤ self.now.most) }
        ensures range { IfOk result (λ number. (self.now.least ≤ number) × (number ≤ self.now.most)) }
        ensures said { MatchResult result
            (λ number. numbers.said self.now.least self.now.most self.now.otherwise (first_of self.now.name.now (rows_of (found_of matches.now))) ≡ Some number)
            (λ refused. (numbers.said self.now.least self.now.most self.now.otherwise (first_of self.now.name.now (rows_of (found_of matches.now))) ≡ None)
            × (refused ≡ fault.Value self.now.place)) }
    {
        let Some(text) = text_of(matches, self.name) else {
            return Ok(self.otherwise);
        };
        match self.number_in(text) {
            Some(number) => Ok(number),
            None => Err(WordsFault::Value(self.place)),
        }
    }
}
