ghost use Rattle.std.specs.Prelude.{◌≡◌, ◌^◌, ◌-◌, ◌<◌, length};
ghost use Rattle.sha2.specs.Sha256.{sha256};
ghost use Rattle.answers.specs.Answers.{Digests, DigestsText};

use problem_theory::{Problem, ReadInstanceError};
use sha2::{Digest, Sha256};
use solver_report::Answer;
use std::alloc::Global;

/// The answer with the SHA-256 of the canonical text of the instance that the text spells, or with the first fault of the text.
pub fn digest_text<P: Problem>(alloc: Global, text: &[u8]) -> Answer
    requires { length text.now < 2 ^ 32 - 1 }
    ensures { DigestsText P.theory text.now result }
{
    match P::read(alloc, text) {
        Ok(model) => digest(alloc, &model),
        Err(ReadInstanceError::Refused(refusal)) => Answer::Refused(refusal),
        Err(ReadInstanceError::OutOfMemory) => Answer::OutOfMemory,
    }
}

/// The SHA-256 of the instance's canonical text.
fn digest<P: Problem>(alloc: Global, model: &P) -> Answer
    ensures { Digests (P.theory.canonical (P.numbers model.now)) result }
{
    match P::print(alloc, model) {
        Ok(text) => Answer::Digest(digest_of(text.as_slice())),
        Err(_) => Answer::OutOfMemory,
    }
}

/// The SHA-256 of a text.
fn digest_of(text: &[u8]) -> [u8; 32]
    ensures { result ≡ sha256 text.now }
{
    let mut hasher = Sha256::new();
    hasher.update(text);
    hasher.finalize()
}
