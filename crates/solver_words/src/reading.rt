ghost use Rattle.std.specs.Prelude.{◌≡◌, ◌<◌, ◌≤◌, ◌^◌, IfOk, IfSome, option_map, List, map, drop, length, string_bytes};
ghost use Rattle.std.specs.List.{list_any};
ghost use Rattle.clap.specs.Matches.{found_of};
ghost use Rattle.clap.specs.Walk.{rows_of};
ghost use Rattle.dp_model.specs.declared.limits.TheConstants.{MOST_DISTANCE};
ghost use Rattle.problem_names.specs.ModelNames.{sizes_of};
ghost use Rattle.solver_words.specs.Grammar.{Argument, line_of};
ghost use Rattle.solver_words.specs.Commands.{RowsTell};
ghost use Rattle.solver_words.specs.Words.{IsAnswer, asked, cover_of, extended, job_view, or_model, solve_syntax, solve_line, resume_syntax, resume_line, split_syntax, split_line, check_syntax, check_line, join_syntax, join_line, digest_syntax, digest_line, generate_syntax, generate_line, is_refused, meaning, searched};
ghost use Rattle.solver_words.specs.Possible.{IsPossible};

use crate::command::parse;
use crate::command_syntax::{CHECK, DIGEST, GENERATE, JOIN, RESUME, SOLVE, SPLIT};
use crate::job::{Job, JobSettings};
use crate::limits::{DEFAULT_COVER_WORDS, MOST_COVER_WORDS, MOST_SEED};
use crate::values::{is_given, read_model, read_optional, read_part, read_placed, read_settings};
use crate::words_error::WordsError;
use clap::ArgMatches;
use dp_model::MOST_DISTANCE;
use problem_names::{ModelName, PartNumber, Sizes};
use std::alloc::{AllocError, Global};

/// The job that the words ask for. The words leave out the program's name.
///
/// # Errors
///
/// - `Usage` exactly if the words are outside the grammar, if a search is to be split and no part is given, or if all values are good and
///   a search of a part is to keep a journal or has a distance above 0.
/// - Otherwise `Model` exactly if the problem is not known, or has no drawn instances and one is asked for.
/// - Otherwise `Number` with its name, or `Cutset`, for the first bad value, in the order of the values.
/// - `OutOfMemory` at any words.
#[tactic(auto, using(crate::proofs::Asked::possible))]
pub fn read_words(alloc: Global, words: &[String]) -> Result<Job, WordsError>
    ensures answer { IsAnswer job_view (meaning (map string_bytes words.now)) result }

    // A search may be made so, and what is to be drawn can be drawn.
    ensures possible { IfOk result (λ job. IsPossible (job_view job)) }
{
    read_command(alloc, words)
}

/// What the words ask for, by the first of them.
fn read_command(alloc: Global, words: &[String]) -> Result<Job, WordsError>
    ensures { IsAnswer job_view (meaning (map string_bytes words.now)) result }
{
    let [command, ..] = words else {
        return Err(WordsError::Usage);
    };
    if has_refused(words) {
        return Err(WordsError::Usage);
    }
    match command.as_str() {
        "solve" => read_solve(alloc, words),
        "resume" => read_resume(alloc, words),
        "split" => read_split(alloc, words),
        "check" => read_check(alloc, words),
        "join" => read_join(alloc, words),
        "digest" => read_digest(alloc, words),
        "generate" => read_generate(alloc, words),
        _ => Err(WordsError::Usage),
    }
}

/// Whether some word is refused before the parser is asked.
fn has_refused(words: &[String]) -> bool
    ensures { result ≡ list_any (λ w. is_refused (string_bytes w)) words.now }
{
    words.iter().any(|word| refuses(word.as_str()))
}

/// Whether a word is empty or ends with `=`.
fn refuses(word: &str) -> bool
    ensures { result ≡ is_refused word.now }
{
    match word.as_bytes() {
        [] => true,
        [.., last] => *last == b'=',
    }
}

fn read_solve(alloc: Global, words: &[String]) -> Result<Job, WordsError>
    requires { 0 < length words.now }
    ensures { IsAnswer job_view (asked solve_line (line_of solve_syntax (drop 1 (map string_bytes words.now)))) result }
{
    let matches = parse(alloc, &SOLVE, words)?;
    solve_job(alloc, &matches)
}

/// The search that the matches ask for.
fn solve_job(alloc: Global, matches: &ArgMatches) -> Result<Job, WordsError>
    ensures { (arguments : List Argument) → RowsTell solve_syntax arguments (rows_of (found_of matches.now)) → IsAnswer job_view (solve_line arguments) result }
{
    let model = read_model(matches)?;
    let settings = read_settings(matches, is_given(matches, "stats"))?;
    let words = read_optional(matches, "cover-words", 0, MOST_COVER_WORDS)?;
    let within = read_optional(matches, "within", 0, MOST_DISTANCE)?;
    let part = read_part(matches)?;
    let journal = copied(alloc, matches.get_str("journal"))?;
    let cover = cover_words(is_given(matches, "cover"), words);
    searched(model, extended(settings, within, cover), journal, part)
}

/// The settings with that distance, where one is given, or else with 0, and with a cover of that many words.
fn extended(settings: JobSettings, within: Option<u64>, cover_words: Option<u64>) -> JobSettings
    requires { IfSome within (λ n. n ≤ MOST_DISTANCE) }
    ensures { result ≡ extended settings within cover_words }
{
    JobSettings {
        within: within.unwrap_or(0) as i64,
        cover_words,
        ..settings
    }
}

/// The search, unless it is of a part, and its journal would have to tell the part, or its answer a distance.
fn searched(
    model: ModelName,
    settings: JobSettings,
    journal: Option<String>,
    part: Option<PartNumber>,
) -> Result<Job, WordsError>
    ensures { IsAnswer job_view (searched model settings (option_map string_bytes journal) part) result }
{
    if part.is_some() && (journal.is_some() || settings.within > 0) {
        return Err(WordsError::Usage);
    }
    Ok(Job::Solve {
        model,
        settings,
        journal,
        part,
    })
}

/// A text of its own, where there is one.
fn copied(alloc: Global, text: Option<&str>) -> Result<Option<String>, AllocError>
    ensures { IfOk result (λ copy. option_map string_bytes copy ≡ option_map (λ t. t.now) text.entry) }
{
    match text {
        Some(text) => Ok(Some(String::from_str(alloc, text)?)),
        None => Ok(None),
    }
}

/// How many words the cover may have, where one is wanted.
fn cover_words(wanted: bool, words: Option<u64>) -> Option<u64>
    ensures { result ≡ cover_of wanted words }
{
    if wanted {
        Some(words.unwrap_or(DEFAULT_COVER_WORDS))
    } else {
        None
    }
}

fn read_resume(alloc: Global, words: &[String]) -> Result<Job, WordsError>
    requires { 0 < length words.now }
    ensures { IsAnswer job_view (asked resume_line (line_of resume_syntax (drop 1 (map string_bytes words.now)))) result }
{
    let matches = parse(alloc, &RESUME, words)?;
    resume_job(alloc, &matches)
}

/// The search that is to go on.
fn resume_job(alloc: Global, matches: &ArgMatches) -> Result<Job, WordsError>
    ensures { (arguments : List Argument) → RowsTell resume_syntax arguments (rows_of (found_of matches.now)) → IsAnswer job_view (resume_line arguments) result }
{
    let Some(path) = matches.get_str("path") else {
        return Err(WordsError::Usage);
    };
    let settings = read_settings(matches, is_given(matches, "stats"))?;
    let path = String::from_str(alloc, path)?;
    let incumbent = is_given(matches, "incumbent");
    Ok(Job::Resume {
        path,
        settings,
        incumbent,
    })
}

fn read_split(alloc: Global, words: &[String]) -> Result<Job, WordsError>
    requires { 0 < length words.now }
    ensures { IsAnswer job_view (asked split_line (line_of split_syntax (drop 1 (map string_bytes words.now)))) result }
{
    let matches = parse(alloc, &SPLIT, words)?;
    split_job(alloc, &matches)
}

/// The search that is to be split, and the part that is asked for.
fn split_job(alloc: Global, matches: &ArgMatches) -> Result<Job, WordsError>
    ensures { (arguments : List Argument) → RowsTell split_syntax arguments (rows_of (found_of matches.now)) → IsAnswer job_view (split_line arguments) result }
{
    let Some(path) = matches.get_str("path") else {
        return Err(WordsError::Usage);
    };
    let Some(part) = read_part(matches)? else {
        return Err(WordsError::Usage);
    };
    let path = String::from_str(alloc, path)?;
    Ok(Job::Split { path, part })
}

fn read_check(alloc: Global, words: &[String]) -> Result<Job, WordsError>
    requires { 0 < length words.now }
    ensures { IsAnswer job_view (asked check_line (line_of check_syntax (drop 1 (map string_bytes words.now)))) result }
{
    parse(alloc, &CHECK, words)?;
    Ok(Job::Check)
}

fn read_join(alloc: Global, words: &[String]) -> Result<Job, WordsError>
    requires { 0 < length words.now }
    ensures { IsAnswer job_view (asked join_line (line_of join_syntax (drop 1 (map string_bytes words.now)))) result }
{
    let matches = parse(alloc, &JOIN, words)?;
    join_job(alloc, &matches)
}

/// What is to be joined: the reports of the parts of a search, where its journal is given, or else outputs with covers.
fn join_job(alloc: Global, matches: &ArgMatches) -> Result<Job, WordsError>
    ensures { (arguments : List Argument) → RowsTell join_syntax arguments (rows_of (found_of matches.now)) → IsAnswer job_view (join_line arguments) result }
{
    let Some(path) = matches.get_str("journal") else {
        return Ok(Job::Join);
    };
    let path = String::from_str(alloc, path)?;
    Ok(Job::JoinReports { path })
}

fn read_digest(alloc: Global, words: &[String]) -> Result<Job, WordsError>
    requires { 0 < length words.now }
    ensures { IsAnswer job_view (asked digest_line (line_of digest_syntax (drop 1 (map string_bytes words.now)))) result }
{
    let matches = parse(alloc, &DIGEST, words)?;
    digest_job(&matches)
}

/// The digest that the matches ask for.
fn digest_job(matches: &ArgMatches) -> Result<Job, WordsError>
    ensures { (arguments : List Argument) → RowsTell digest_syntax arguments (rows_of (found_of matches.now)) → IsAnswer job_view (digest_line arguments) result }
{
    let model = read_model(matches)?;
    Ok(Job::Digest { model })
}

fn read_generate(alloc: Global, words: &[String]) -> Result<Job, WordsError>
    requires { 0 < length words.now }
    ensures { IsAnswer job_view (asked generate_line (line_of generate_syntax (drop 1 (map string_bytes words.now)))) result }
{
    let matches = parse(alloc, &GENERATE, words)?;
    generate_job(&matches)
}

/// The instance that is to be drawn.
fn generate_job(matches: &ArgMatches) -> Result<Job, WordsError>
    ensures { (arguments : List Argument) → RowsTell generate_syntax arguments (rows_of (found_of matches.now)) → IsAnswer job_view (generate_line arguments) result }
{
    let model = read_model(matches)?;
    let sizes = read_sizes(model)?;
    let n = read_placed(matches, "n", sizes.least as u64, sizes.most as u64)?;
    let seed = read_placed(matches, "seed", 0, MOST_SEED)?;
    Ok(Job::Generate {
        model,
        n: n as u32,
        seed: seed as u32,
        solve: is_given(matches, "solve"),
    })
}

/// The sizes of which instances of the problem are drawn.
fn read_sizes(model: ModelName) -> Result<Sizes, WordsError>
    ensures { IsAnswer (λ sizes. sizes) (or_model (sizes_of model)) result }
{
    match model.sizes() {
        Some(sizes) => Ok(sizes),
        None => Err(WordsError::Model),
    }
}
