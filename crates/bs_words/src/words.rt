//! The words as options.
ghost use Rattle.std.specs.Prelude.{◌≡◌, ◌≢◌, ◌≤◌, ◌⊎◌, [], true, IfOk, IfSome};
ghost use Rattle.clap.specs.Words.{app_of};
ghost use Rattle.bs_words.specs.Words.{accepts, app, faults, memo_of, seed_of, texts, workers_of};

use clap::error::ErrorKind;
use clap::{Arg, ArgAction, Command, value_parser};
use std::alloc::{AllocError, Global};

/// What a run is to use.
#[derive(Debug, Drop)]
pub struct Options {
    /// How many workers, 1 to 64. Without a number no thread is started.
    pub workers: Option<usize>,
    /// How many values may be remembered from one session to another, at most 1,048,576.
    pub memo: usize,
    /// The seed of a made input, which then stands in place of the one that is read.
    pub seed: Option<u64>,
}

/// Why the words give no options.
#[derive(Debug, Drop)]
pub enum WordsFault {
    /// They are not in the usage, or they ask for help.
    Usage,
    /// Memory ran out.
    Memory(AllocError),
}

/// How many values may be remembered where the words do not say.
const MEMO: usize = 65_536;

/// The options that the words name. The words are those after the program's name.
///
/// Takes memory for the command, for a list of the words and for the text of a refusal. Whether want of it is told for
/// words that are refused as well is left open.
pub fn read_words(alloc: Global, words: &[String]) -> Result<Options, WordsFault>
    // Words are refused as usage only where they have a fault, and words that have one are never taken.
    ensures usage_only_at_a_fault { result ≡ Err WordsFault.Usage → faults (texts words.now) ≢ [] }
    ensures refused_at_a_fault { faults (texts words.now) ≢ []
        → (result ≡ Err WordsFault.Usage) ⊎ ((cause : _) × (result ≡ Err (WordsFault.Memory cause))) }
    ensures accepted_are_not_usage { accepts (texts words.now) ≡ true → result ≢ Err WordsFault.Usage }

    ensures workers_as_given { IfOk result (λ options. options.workers ≡ workers_of (texts words.now)) }
    ensures memo_as_given { IfOk result (λ options. options.memo ≡ memo_of (texts words.now)) }
    ensures seed_as_given { IfOk result (λ options. options.seed ≡ seed_of (texts words.now)) }
    ensures one_to_64_workers { IfOk result (λ options. IfSome options.workers (λ n. (1 ≤ n) × (n ≤ 64))) }
    ensures memo_in_its_limit { IfOk result (λ options. options.memo ≤ 1048576) }
{
    let matches = match command(alloc) {
        Ok(command) => command.try_get_matches_from(words),
        Err(cause) => return Err(WordsFault::Memory(cause)),
    };
    match matches {
        Ok(matches) => Ok(Options {
            workers: matches.get_one::<usize>("workers"),
            memo: matches.get_one::<usize>("memo").unwrap_or(MEMO),
            seed: matches.get_one::<u64>("make"),
        }),
        Err(error) => match error.kind() {
            ErrorKind::OutOfMemory => Err(WordsFault::Memory(AllocError)),
            _ => Err(WordsFault::Usage),
        },
    }
}

// The command: three options, each once, and no program's name before them.
fn command<'a>(alloc: Global) -> Result<Command<'a>, AllocError>
    ensures { IfOk result (λ c. app_of c ≡ app) }
{
    let workers = Arg::new(alloc, "workers")
        .long("workers")
        .action(ArgAction::Set)
        .value_parser(value_parser!(usize).range(1..=64));
    let memo = Arg::new(alloc, "memo")
        .long("memo")
        .action(ArgAction::Set)
        .value_parser(value_parser!(usize).range(..=1_048_576));
    let make = Arg::new(alloc, "make")
        .long("make")
        .action(ArgAction::Set)
        .value_parser(value_parser!(u64));
    Command::new(alloc, "bseries")
        .no_binary_name(true)
        .arg(workers)?
        .arg(memo)?
        .arg(make)
}
