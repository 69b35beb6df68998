ghost use Rattle.std.specs.Prelude.{◌≡◌, ◌+◌, ◌-◌, ◌^◌, ◌<◌, ◌≤◌, length, true, OnOk};
ghost use Rattle.std.specs.List.{list_all};
ghost use Rattle.tokens.specs.Grammar.{Reads, times};
ghost use Rattle.qubo.specs.Quadratic.{is_line};
ghost use Rattle.qubo.specs.Reading.{line_after, instance_text};
ghost use Rattle.qubo.specs.Shown.{instance_in};

use crate::instance::Qubo;
use crate::line::Line;
use std::alloc::Global;
use tokens::{Comment, ReadModelError, Tokens};

const MOST_VARIABLES: u64 = 1024;

const MOST_LINES: u64 = 1_048_576;

const GREATEST_WEIGHT: i64 = 250_000_000;

/// Reads a line and appends it.
#[tactic(auto, unfolding(crate::specs::Reading::line_after), using(tokens::proofs::Chains::part_fails))]
fn next_line(
    variables: u64,
    tokens: &mut Tokens,
    lines: &mut Vec<Line>,
) -> Result<(), ReadModelError>
    requires few { variables ≤ 1024 }
    requires kept { list_all (is_line variables) lines.old.items ≡ true }
    ensures reads { Reads (λ _. (lines.new.items, tokens.new)) result (line_after variables lines.old.items tokens.old) }
    ensures one { OnOk result (length lines.new.items ≡ length lines.old.items + 1) }
    ensures kept { OnOk result (list_all (is_line variables) lines.new.items ≡ true) }
{
    let first = tokens.next_natural(1, variables)?;
    let second = tokens.next_natural(first, variables)?;
    let weight = tokens.next_number(-GREATEST_WEIGHT, GREATEST_WEIGHT)?;
    lines.push(Line {
        first: (first - 1) as u32,
        second: (second - 1) as u32,
        weight,
    })?;
    Ok(())
}

/// Reads `count` lines and appends them.
#[tactic(auto, using(tokens::proofs::Chains::times_steps))]
fn next_lines(
    count: u64,
    variables: u64,
    tokens: &mut Tokens,
    lines: &mut Vec<Line>,
) -> Result<(), ReadModelError>
    requires few { variables ≤ 1024 }
    requires kept { list_all (is_line variables) lines.old.items ≡ true }
    ensures reads { Reads (λ _. (lines.new.items, tokens.new)) result (times (line_after variables) count lines.old.items tokens.old) }
    ensures count { OnOk result (length lines.new.items ≡ length lines.old.items + count) }
    ensures kept { OnOk result (list_all (is_line variables) lines.new.items ≡ true) }
{
    for _ in 0..count {
        next_line(variables, tokens, lines)?;
    }
    Ok(())
}

/// Reads an instance from its text: the number of variables and the number of lines, then for each line two variables, from 1, and a
/// weight. The second variable is the first one or a later one. Lines may stand in any order, and those of the same variables add up.
/// The text has less than 2^32 - 1 bytes.
///
/// # Errors
///
/// `Text` with the first fault in reading order and its place: `EndOfText` for a missing number, `NotAscii` or `NotNumber` for a
/// token that is no number, `OutOfRange` for a number outside its range (0 to 1,024 variables, 0 to `2^20` lines, a first variable that
/// is none, a second one that is none or stands before the first, a weight of more than 250,000,000 in size), and `Trailing` or
/// `NotAscii` for a token after the last line. `OutOfMemory` for want of memory.
#[tactic(auto, unfolding(crate::specs::Reading::instance_at), using(tokens::proofs::Chains::part_fails))]
pub fn read(alloc: Global, bytes: &[u8]) -> Result<Qubo, ReadModelError>
    requires { length bytes.now < 2 ^ 32 - 1 }
    ensures { Reads instance_in result (instance_text bytes.now) }
{
    let mut tokens = Tokens::new(bytes, Comment::Never);
    let variables = tokens.next_natural(0, MOST_VARIABLES)?;
    let count = tokens.next_natural(0, MOST_LINES)?;
    let mut lines = Vec::new(alloc);
    next_lines(count, variables, &mut tokens, &mut lines)?;
    tokens.finish()?;
    Ok(Qubo {
        variables: variables as usize,
        lines,
    })
}
