//! Several texts, one after another.

ghost use Rattle.std.specs.Prelude.{◌≡◌, ◌<◌, ◌≤◌, ◌-◌, ◌^◌, ◌++◌, [], ◌∷◌, true, length, map, vec_len, IfOk, OnOk, OnErr, Err};
ghost use Rattle.dp_model.specs.Lists.{Each};
ghost use Rattle.cover_text.specs.Grammar.{Reads};
ghost use Rattle.cover_text.specs.Several.{begins_blank, begins_end, size_to_end, sections_size, first_text, text_at, is_over, texts_from, texts_of};
ghost use Rattle.cover_text.specs.Texts.{text_in};
ghost use Rattle.cover_text.specs.declared.cover_error.CoverError.TheVariants.{OutOfMemory};

use crate::cover_error::CoverError;
use crate::cover_text::CoverText;
use crate::fixed::is_word;
use crate::instance::{end_place, moved};
use crate::reading::open_cover;
use std::alloc::Global;
use tokens::{Comment, Tokens};

/// A text, and the bytes after it.
#[derive(Debug, Drop)]
struct First<'t> {
    text: CoverText,
    rest: &'t [u8],
}

/// Whether a blank or nothing stands first.
fn begins_blank(bytes: &[u8]) -> bool
    ensures { result ≡ begins_blank bytes.now }
{
    match bytes {
        [] => true,
        [b, ..] => *b == b' ' || *b == b'\t' || *b == b'\r' || *b == b'\n',
    }
}

/// Whether the word `end` stands first.
#[tactic(auto, using(crate::proofs::Ends::end_steps))]
fn begins_end(bytes: &[u8]) -> bool
    ensures { result ≡ begins_end bytes.now }
{
    bytes.len() >= 3 && is_word(&bytes[..3], b"end") && begins_blank(&bytes[3..])
}

/// How many bytes the sections of a text have, where further texts may stand after it.
#[tactic(auto, using(crate::proofs::Ends::size_steps))]
fn sections_size(bytes: &[u8]) -> usize
    ensures size { result ≡ sections_size bytes.now }
    ensures within { result ≤ length bytes.now }
{
    let mut rest = bytes;
    let mut starts = true;
    let mut size = 0;
    while let [_, after @ ..] = rest {
        if starts && begins_end(rest) {
            return size + rest.len().min(4);
        }
        starts = begins_blank(rest);
        size += 1;
        rest = after;
    }
    size
}

/// Reads the first text.
#[tactic(auto, unfolding(crate::specs::Several::first_text))]
fn read_first(alloc: Global, bytes: &[u8]) -> Result<First<'_>, CoverError>
    requires { length bytes.now < 2 ^ 32 - 1 }
    ensures read { Reads (λ f. record { text = text_in f.text; rest = f.rest.now }) result (first_text bytes.now) }
    ensures within { IfOk result (λ f. length f.rest.now ≤ length bytes.now) }
    ensures inside { IfOk result (λ f. vec_len f.text.instance ≤ length bytes.now) }
{
    let open = open_cover(alloc, bytes)?;
    let size = sections_size(open.following);
    let cover = open.read_part(alloc, &open.following[..size])?;
    let rest = &open.following[size..];
    let text = open.held(alloc, cover)?;
    Ok(First { text, rest })
}

/// Reads the first text of the bytes that are left of the whole input, with the places of its faults in the whole.
#[tactic(auto, unfolding(crate::specs::Several::text_at), using(crate::proofs::Ends::moved_steps))]
fn read_at<'t>(alloc: Global, whole: &[u8], rest: &'t [u8]) -> Result<First<'t>, CoverError>
    requires whole { length whole.now < 2 ^ 32 - 1 }
    requires rest { length rest.now ≤ length whole.now }
    ensures read { Reads (λ f. record { text = text_in f.text; rest = f.rest.now }) result (text_at whole.now rest.now) }
    ensures within { IfOk result (λ f. length f.rest.now ≤ length whole.now) }
    ensures inside { IfOk result (λ f. vec_len f.text.instance ≤ length whole.now) }
{
    match read_first(alloc, rest) {
        Ok(first) => Ok(first),
        Err(fault) => {
            let before = &whole[..whole.len() - rest.len()];
            Err(moved(end_place(before), fault))
        }
    }
}

/// Whether no token is left.
fn is_over(bytes: &[u8]) -> bool
    requires { length bytes.now < 2 ^ 32 - 1 }
    ensures { result ≡ is_over bytes.now }
{
    Tokens::new(bytes, Comment::Never).at_end()
}

/// Puts a text after the others.
#[tactic(auto, using(crate::proofs::Ends::text_steps))]
fn add_text(texts: &mut Vec<CoverText>, text: CoverText, most: usize) -> Result<(), CoverError>
    requires text { vec_len text.instance ≤ most }
    requires texts { Each (λ t. vec_len t.instance ≤ most) texts.old.items }
    ensures pushed { OnOk result (map text_in texts.new.items ≡ map text_in texts.old.items ++ text_in text ∷ []) }
    ensures inside { OnOk result (Each (λ t. vec_len t.instance ≤ most) texts.new.items) }
    ensures cause { OnErr result (result ≡ Err OutOfMemory) }
{
    texts.push(text)?;
    Ok(())
}

/// Reads further texts to the end of the input, and puts them after the others.
#[tactic(auto, using(crate::proofs::Ends::from_steps))]
fn read_more(
    alloc: Global,
    whole: &[u8],
    rest: &[u8],
    texts: &mut Vec<CoverText>,
) -> Result<(), CoverError>
    requires whole { length whole.now < 2 ^ 32 - 1 }
    requires rest { length rest.now ≤ length whole.now }
    requires texts { Each (λ t. vec_len t.instance ≤ length whole.now) texts.old.items }
    ensures read { Reads (λ _. map text_in texts.new.items) result (texts_from whole.now (length whole.now) (map text_in texts.old.items) rest.now) }
    ensures inside { OnOk result (Each (λ t. vec_len t.instance ≤ length whole.now) texts.new.items) }
{
    let mut rest = rest;
    for _ in 0..whole.len() {
        if is_over(rest) {
            return Ok(());
        }
        let First { text, rest: after } = read_at(alloc, whole, rest)?;
        add_text(texts, text, whole.len())?;
        rest = after;
    }
    Ok(())
}

/// Reads one or more whole texts to the end of the input.
///
/// The first fault is answered, as by `read_cover`, with its place in the whole input; without a text that is a fault too. No instance has more
/// bytes than the input.
#[tactic(auto, unfolding(crate::specs::Several::texts_of), using(crate::proofs::Ends::of_steps))]
pub fn read_covers(alloc: Global, bytes: &[u8]) -> Result<Vec<CoverText>, CoverError>
    requires { length bytes.now < 2 ^ 32 - 1 }
    ensures read { Reads (λ texts. map text_in texts.items) result (texts_of bytes.now) }
    ensures inside { IfOk result (λ texts. Each (λ t. vec_len t.instance ≤ length bytes.now) texts.items) }
{
    let First { text, rest } = read_at(alloc, bytes, bytes)?;
    let mut texts = Vec::new(alloc);
    add_text(&mut texts, text, bytes.len())?;
    read_more(alloc, bytes, rest, &mut texts)?;
    Ok(texts)
}
