ghost use Rattle.std.specs.Prelude.{◌≡◌, MatchResult, map, string_bytes};
ghost use Rattle.clap.specs.Words.{FailsBy, fault_of, kind_of, subcommand_rows_of};
ghost use Rattle.words_clap_spec.specs.Holding.{Holds};
ghost use Rattle.words_clap_spec.specs.Program.{program};
ghost use Rattle.words_spec.specs.PlainWords.{Asked, Asks};

use crate::program::command;
use clap::error::ErrorKind;
use clap::{ArgMatches, Error};
use std::alloc::Global;

/// What `clap` makes of the words. For plain words it is what they ask for, or want of memory.
pub fn matches<'a>(alloc: Global, words: &'a [String]) -> Result<ArgMatches<'a>, Error>
    ensures plain { (asked : Asked) → Asks (map string_bytes words.now) asked
        → MatchResult result (λ found. Holds asked (subcommand_rows_of found))
        (λ error. kind_of error ≡ ErrorKind.OutOfMemory) }
    ensures kinds { FailsBy (fault_of program (map string_bytes words.now)) result }
{
    let command = command(alloc)?;
    command.try_get_matches_from(words)
}
