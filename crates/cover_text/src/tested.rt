//! The sections of layers, tested as they are read.

ghost use Rattle.std.specs.Prelude.{◌≡◌, ◌<◌, ◌+◌, ◌-◌, ◌^◌, [], length, codes, OnOk};
ghost use Rattle.dp_model.specs.Distances.{IsDistance};
ghost use Rattle.cover_text.specs.Grammar.{Reads, until, stands};
ghost use Rattle.cover_text.specs.Sections.{numbered_at};
ghost use Rattle.cover_text.specs.Tested.{tested_at, tested_sections};

use crate::cover_error::CoverError;
use crate::fixed::pass_word;
use crate::layers::read_numbered;
use bound_cover::{Checker, Cover, CoverBuilder, LayerTests, Reported, Verdict};
use dp_model::DpModel;
use std::alloc::Global;
use tokens::{Comment, Tokens};

/// Reads the section of the layer of this number alone, into the memory of a cover that is not needed any more.
#[tactic(auto, using(crate::proofs::Chains::part_fails))]
fn read_alone(
    tokens: &mut Tokens<'_>,
    most: usize,
    number: usize,
    spare: Cover,
) -> Result<Cover, CoverError>
    ensures { Reads (λ cover. (cover, tokens.new)) result (numbered_at most number [] tokens.old) }
{
    let mut cover = CoverBuilder::reusing(spare);
    read_numbered(tokens, most, number, &mut cover)?;
    Ok(cover.finish())
}

/// Reads the section of the next layer and tests what can be tested then, and gives the layer before back.
#[tactic(auto, unfolding(crate::specs::Tested::tested_at), using(crate::proofs::Chains::part_fails))]
fn test_layer<M: DpModel>(
    tokens: &mut Tokens<'_>,
    most: usize,
    model: &M,
    checker: &mut Checker,
    tests: &mut LayerTests,
    spare: Cover,
) -> Result<Cover, CoverError>
    requires prepared { checker.old.words ≡ (M.meaning (M.numbers model.now)).words }
    requires few { tests.old.count < 2 ^ 64 - 1 }
    ensures read { Reads (λ _. (tests.new, tokens.new)) result (tested_at (M.meaning (M.numbers model.now)) most tests.old tokens.old) }
    ensures count { OnOk result (tests.new.count ≡ tests.old.count + 1) }
    ensures same { checker.new ≡ checker.old }
{
    let next = read_alone(tokens, most, tests.count(), spare)?;
    Ok(checker.take_layer(model, tests, next))
}

/// Reads the sections up to the word `end`, at most this many, and tests each with the one before.
#[tactic(auto, using(crate::proofs::Chains::until_steps))]
fn test_layers<M: DpModel>(
    tokens: &mut Tokens<'_>,
    most: usize,
    model: &M,
    checker: &mut Checker,
    tests: &mut LayerTests,
    spare: Cover,
) -> Result<(), CoverError>
    requires few { tests.old.count ≡ 0 }
    requires prepared { checker.old.words ≡ (M.meaning (M.numbers model.now)).words }
    ensures read { Reads (λ _. (tests.new, tokens.new)) result (until (stands (codes "end")) (tested_at (M.meaning (M.numbers model.now)) most) most tests.old tokens.old) }
    ensures same { checker.new ≡ checker.old }
{
    let mut spare = spare;
    for _ in 0..most {
        if tokens.next_is(b"end") {
            return Ok(());
        }
        spare = test_layer(tokens, most, model, checker, tests, spare)?;
    }
    Ok(())
}

/// Reads the sections to the end of the text and tests them on the way: the verdict on them, with the reported value, distance and
/// assignment. Two layers at a time are in memory.
#[tactic(auto, unfolding(crate::specs::Tested::tested_sections), using(crate::proofs::Chains::part_fails, crate::proofs::Chains::passed_fails))]
pub(crate) fn test_sections<M: DpModel>(
    alloc: Global,
    model: &M,
    reported: Reported<'_>,
    bytes: &[u8],
) -> Result<Verdict, CoverError>
    requires length { length bytes.now < 2 ^ 32 - 1 }
    requires distance { IsDistance reported.within }
    ensures { Reads (λ v. v) result (tested_sections (M.meaning (M.numbers model.now)) reported.entry.best reported.entry.within reported.entry.assignment.now bytes.now) }
{
    let mut checker = Checker::prepare(alloc, model)?;
    let mut tests = checker.begin(alloc, model, reported);
    let mut tokens = Tokens::new(bytes, Comment::Never);
    test_layers(
        &mut tokens,
        bytes.len(),
        model,
        &mut checker,
        &mut tests,
        Cover::new(alloc),
    )?;
    pass_word(&mut tokens, b"end")?;
    tokens.finish()?;
    Ok(checker.conclude(model, &tests))
}
