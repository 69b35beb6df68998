ghost use Rattle.std.specs.Prelude.{◌≡◌, ◌≤◌, ◌<◌, Bool, IfOk, IfSome, Some, cond, codes};
ghost use Rattle.clap.specs.Matches.{first_value, found_of, one_text};
ghost use Rattle.solver_words.specs.Words.{IsAnswer, natural_in_64_bits, ranged, optional, settings_of, cut_named, model_of, part_asked, part_from, part_written, positional_number};

use crate::job::JobSettings;
use crate::words_error::WordsError;
use clap::ArgMatches;
use dp_model::{CutKind, MOST_LAYER_PARTS, MOST_WIDTH, MOST_WORKERS};
use problem_names::{MOST_PARTS, ModelName, PartNumber};
use tokens::MOST_DIGITS;

/// The number of 1 to `MOST_DIGITS` digits, where it is below 2^64.
#[tactic(auto, using(crate::proofs::Numbers::no_plus, crate::proofs::Numbers::parsed))]
fn read_u64(word: &str) -> Option<u64>
    ensures { result ≡ natural_in_64_bits word.now }
{
    match word.as_bytes() {
        [] => None,
        // `parse` takes a plus, which no number has.
        [b'+', ..] => None,
        digits if digits.len() > MOST_DIGITS => None,
        _ => word.parse().ok(),
    }
}

/// The number of 1 to `MOST_DIGITS` digits from `least` to `most`.
#[tactic(auto, using(crate::proofs::Numbers::in_range))]
pub(crate) fn read_number(word: &str, least: u64, most: u64) -> Option<u64>
    ensures exact { result ≡ ranged least most word.now }
    ensures bounds { IfSome result (λ n. (least ≤ n) × (n ≤ most)) }
{
    let number = read_u64(word)?;
    if least <= number && number <= most {
        Some(number)
    } else {
        None
    }
}

/// The number of an option, where it is given.
pub(crate) fn read_optional(
    matches: &ArgMatches,
    option: &'static str,
    least: u64,
    most: u64,
) -> Result<Option<u64>, WordsError>
    ensures answer { IsAnswer (λ n. n) (optional option.entry.now least most (first_value (found_of matches.now) option.entry.now)) result }
    ensures bound { IfOk result (λ o. IfSome o (λ n. n ≤ most)) }
{
    let Some(word) = matches.get_str(option) else {
        return Ok(None);
    };
    match read_number(word, least, most) {
        Some(number) => Ok(Some(number)),
        None => Err(WordsError::Number { option }),
    }
}

/// The part that a word `I/K` writes.
fn part_of(word: &str) -> Option<PartNumber>
    ensures { result ≡ part_written word.now }
{
    match word.split_once('/') {
        Some((index, of)) => part_from(index, of),
        None => None,
    }
}

/// The part with the number `index` of `of` parts.
fn part_from(index: &str, of: &str) -> Option<PartNumber>
    ensures { result ≡ part_from index.now of.now }
{
    let of = read_number(of, 1, MOST_PARTS as u64)?;
    let index = read_number(index, 0, of - 1)?;
    Some(PartNumber {
        index: index as u32,
        of: of as u32,
    })
}

/// The part that is to be searched, where one is given.
pub(crate) fn read_part(matches: &ArgMatches) -> Result<Option<PartNumber>, WordsError>
    ensures { IsAnswer (λ p. p) (part_asked (first_value (found_of matches.now) (codes "part"))) result }
{
    let Some(word) = matches.get_str("part") else {
        return Ok(None);
    };
    match part_of(word) {
        Some(part) => Ok(Some(part)),
        None => Err(WordsError::Number { option: "part" }),
    }
}

/// The number of a positional word.
pub(crate) fn read_placed(
    matches: &ArgMatches,
    place: &'static str,
    least: u64,
    most: u64,
) -> Result<u64, WordsError>
    ensures answer { IsAnswer (λ n. n) (positional_number place.entry.now least most (first_value (found_of matches.now) place.entry.now)) result }
    ensures bounds { IfOk result (λ n. (least ≤ n) × (n ≤ most)) }
{
    let Some(word) = matches.get_str(place) else {
        return Err(WordsError::Number { option: place });
    };
    match read_number(word, least, most) {
        Some(number) => Ok(number),
        None => Err(WordsError::Number { option: place }),
    }
}

/// The cutset of that name.
fn read_cut(word: &str) -> Result<CutKind, WordsError>
    ensures { IsAnswer (λ c. c) (cut_named word.now) result }
{
    match word {
        "lel" => Ok(CutKind::LastExactLayer),
        "frontier" => Ok(CutKind::Frontier),
        _ => Err(WordsError::Cutset),
    }
}

/// The settings of a search, by its options, with the distance 0 and without a cover.
pub(crate) fn read_settings(matches: &ArgMatches, stats: bool) -> Result<JobSettings, WordsError>
    ensures { IsAnswer (λ s. s) (settings_of (first_value (found_of matches.now)) stats) result }
{
    let width = read_optional(matches, "width", 1, MOST_WIDTH as u64)?;
    let workers = read_optional(matches, "workers", 1, MOST_WORKERS as u64)?;
    let parts = read_optional(matches, "parts", 1, MOST_LAYER_PARTS as u64)?;
    let budget = read_optional(matches, "budget", 0, u64::MAX)?;
    let cutset = match matches.get_str("cutset") {
        Some(word) => read_cut(word)?,
        None => CutKind::LastExactLayer,
    };
    Ok(JobSettings {
        width: width.map(|w| w as u32),
        workers: workers.unwrap_or(1) as u32,
        budget: budget.unwrap_or(u64::MAX),
        cutset,
        stats,
        within: 0,
        cover_words: None,
        parts: parts.unwrap_or(1) as u32,
    })
}

/// The problem that the first positional word names.
pub(crate) fn read_model(matches: &ArgMatches) -> Result<ModelName, WordsError>
    ensures { IsAnswer (λ m. m) (model_of (first_value (found_of matches.now) (codes "model"))) result }
{
    let Some(word) = matches.get_str("model") else {
        return Err(WordsError::Model);
    };
    match ModelName::named(word) {
        Some(name) => Ok(name),
        None => Err(WordsError::Model),
    }
}

/// Whether an option without a value was given, where the matches say one of the two.
pub(crate) fn is_given(matches: &ArgMatches, flag: &str) -> bool
    ensures { (b : Bool) → one_text (found_of matches.now) flag.now ≡ Some (cond b (codes "true") (codes "false")) → result ≡ b }
{
    matches.get_flag(flag)
}
