ghost use Rattle.std.specs.Prelude.{◌-◌, ◌^◌, ◌<◌, length, Ok, pos};
ghost use Rattle.tokens.specs.Text.{text_start};
ghost use Rattle.tokens.specs.declared.comment.Comment.TheVariants.{Hash};
ghost use Rattle.tokens.specs.Grammar.{number_then, end_then, times, Reads};
ghost use Rattle.tests_base.specs.Digits.{digit_at, digits_at};
ghost use Rattle.tokens.specs.declared.comment.Comment.TheVariants.{Never};

use crate::comparing::equal;
use std::alloc::Global;
use std::process::Abort;
use std::test::Fail;
use tokens::*;

// Two numbers, a count and a size, and then the end.
fn read_pair(bytes: &[u8]) -> Result<(i64, i64), ReadModelError>
    requires { length bytes.now < 2 ^ 32 - 1 }
    ensures { Reads (λ p. p) result
        (number_then (pos 0) (pos 1000) (text_start Hash bytes.now) (λ count t.
        number_then (pos 1) (pos 9) t (λ size u.
        end_then u (Ok (count, size))))) }
{
    let mut tokens = Tokens::new(bytes, Comment::Hash);
    let count = tokens.next_number(0, 1000)?;
    let size = tokens.next_number(1, 9)?;
    tokens.finish()?;
    Ok((count, size))
}

#[tactic(auto, unfolding(crate::specs::Digits::digit_at))]
fn read_digit(tokens: &mut Tokens, digits: &mut Vec<i64>) -> Result<(), ReadModelError>
    ensures { Reads (λ _. (digits.new.items, tokens.new)) result (digit_at digits.old.items tokens.old) }
{
    let digit = tokens.next_number(0, 9)?;
    digits.push(digit)?;
    Ok(())
}

#[tactic(auto, using(tokens::proofs::Chains::times_steps))]
fn read_all(count: u64, tokens: &mut Tokens, digits: &mut Vec<i64>) -> Result<(), ReadModelError>
    ensures { Reads (λ _. (digits.new.items, tokens.new)) result (times digit_at count digits.old.items tokens.old) }
{
    for _ in 0..count {
        read_digit(tokens, digits)?;
    }
    Ok(())
}

#[tactic(auto, unfolding(crate::specs::Digits::digits_at), using(tokens::proofs::Chains::part_fails))]
fn read_digits(alloc: Global, bytes: &[u8]) -> Result<Vec<i64>, ReadModelError>
    requires { length bytes.now < 2 ^ 32 - 1 }
    ensures { Reads (λ v. v.items) result (digits_at (text_start Never bytes.now)) }
{
    let mut tokens = Tokens::new(bytes, Comment::Never);
    let count = tokens.next_number(0, 1000)?;
    let mut digits = Vec::new(alloc);
    read_all(count as u64, &mut tokens, &mut digits)?;
    tokens.finish()?;
    Ok(digits)
}

/// A text, and what is read of it: the pair, or the first fault with its line and its column.
type Pair = (&'static [u8], Result<(i64, i64), (InstanceFault, u32, u32)>);

const PAIRS: &[Pair] = &[
    (b"7 9", Ok((7, 9))),
    (b" # 1 2\n\t7\r\n  #x\n9 \n", Ok((7, 9))),
    (b"", Err((InstanceFault::EndOfText, 1, 1))),
    (b"x", Err((InstanceFault::NotNumber, 1, 1))),
    (b"1001 5", Err((InstanceFault::OutOfRange, 1, 1))),
    (b"3\n10 #", Err((InstanceFault::OutOfRange, 2, 1))),
    (b"3\n", Err((InstanceFault::EndOfText, 2, 1))),
    (b"0 5\n7", Err((InstanceFault::Trailing, 2, 1))),
    (b"0 5 #", Err((InstanceFault::Trailing, 1, 5))),
    (b"\xc3 1", Err((InstanceFault::NotAscii, 1, 1))),
    (b"0 5\n\t\xc3", Err((InstanceFault::NotAscii, 2, 2))),
];

/// The error at a place.
fn fault_at((fault, line, column): (InstanceFault, u32, u32)) -> ReadModelError {
    let place = Place { line, column };
    ReadModelError::Text(InstanceError { fault, place })
}

#[test]
fn a_pair_is_read_to_its_end(rt: HostRuntime) {
    for (bytes, wanted) in PAIRS.iter().copied() {
        assert!(rt; bytes.len() < 100);
        equal(
            &rt,
            (bytes, read_pair(bytes)),
            (bytes, wanted.map_err(fault_at)),
        );
    }
}

/// Appends a word with its place, and a line end where it is the last of its line.
fn push_word(out: &mut Vec<u8>, word: &[u8], place: Place, ends: bool) -> Result<(), OutOfMemory> {
    out.extend_from_slice(word)?;
    push_place(out, place)?;
    push_text(out, if ends { "\n" } else { " " })
}

/// Each token with its place, a line end where it is the last of its line, and the place of the end.
fn survey(out: &mut Vec<u8>, bytes: &[u8], comment: Comment) -> Result<(), OutOfMemory>
    requires { length bytes.now < 2 ^ 32 - 1 }
{
    let mut tokens = Tokens::new(bytes, comment);
    for _ in 0..bytes.len() {
        let place = tokens.place();
        if let Ok(word) = tokens.next_word() {
            push_word(out, word, place, tokens.at_line_end())?;
        }
    }
    let ends = tokens.at_end() && tokens.finish().is_ok();
    push_text(out, if ends { "end" } else { "more" })?;
    push_place(out, tokens.place())
}

/// Appends a place.
fn push_place(out: &mut Vec<u8>, place: Place) -> Result<(), OutOfMemory> {
    push_text(out, " ")?;
    push_number(out, i64::from(place.line))?;
    push_text(out, ":")?;
    push_number(out, i64::from(place.column))
}

/// A text with the start of its comments, and its tokens with their places.
type Survey = (&'static [u8], Comment, &'static [u8]);

const SURVEYS: &[Survey] = &[
    (b"", Comment::Never, b"end 1:1"),
    (b" \t\r\n ", Comment::Never, b"end 2:2"),
    (b"a\xc3 b", Comment::Never, b"a\xc3 1:1 b 1:4\nend 1:5"),
    (
        b"#x\n 1 #2\n  # 3 4\n\t#5\r\n6 \r\n",
        Comment::Hash,
        b"1 2:2 #2 2:4\n6 5:1\nend 6:1",
    ),
    (
        b"c 1\ncnf c\n c\nx\tc \nc",
        Comment::LetterC,
        b"x 4:1 c 4:3\nend 5:2",
    ),
    (
        b"a\x0bb \x0c\nc\x00d",
        Comment::Never,
        b"a\x0bb 1:1 \x0c 1:5\nc\x00d 2:1\nend 2:4",
    ),
    (b"#1 2", Comment::Never, b"#1 1:1 2 1:4\nend 1:5"),
    (
        b"1\r2\n\n\n 3 \t\n#",
        Comment::Hash,
        b"1 1:1 2 1:3\n3 4:2\nend 5:2",
    ),
];

#[test]
fn words_stand_at_their_places(rt: HostRuntime) -> Result<(), Fail> {
    for (bytes, comment, seen) in SURVEYS.iter().copied() {
        assert!(rt; bytes.len() < 100);
        let mut out = Vec::new(rt.alloc());
        survey(&mut out, bytes, comment)?;
        equal(&rt, out.as_slice(), seen);
    }
    Ok(())
}

/// A number in a text of its own: the first token, where the text begins.
const HERE: Place = Place { line: 1, column: 1 };

/// A text, and the number that it is.
type Number = (&'static [u8], Result<i64, TextError>);

const NUMBERS: &[Number] = &[
    (b"-9223372036854775808", Ok(i64::MIN)),
    (b"9223372036854775807", Ok(i64::MAX)),
    (b"9223372036854775808", Err(TextError::OutOfRange(HERE))),
    (b"-9223372036854775809", Err(TextError::OutOfRange(HERE))),
    (b"18446744073709551617", Err(TextError::OutOfRange(HERE))),
    (b"-0", Ok(0)),
    (b"-12              ", Ok(-12)),
    (b"-", Err(TextError::NotNumber(HERE))),
    (b"-              ", Err(TextError::NotNumber(HERE))),
    (b"+1", Err(TextError::NotNumber(HERE))),
    (
        b"11111111111111111111111111111x",
        Err(TextError::NotNumber(HERE)),
    ),
    (b"--1", Err(TextError::NotNumber(HERE))),
    (b"\xff", Err(TextError::NotAscii(HERE))),
];

/// The text is this number, or refused with this error, and an error leaves the token.
fn has_number(rt: &impl Abort, bytes: &[u8], wanted: Result<i64, TextError>) {
    assert!(rt; bytes.len() < 10000);
    let mut tokens = Tokens::new(bytes, Comment::Never);
    let found = tokens.next_number(i64::MIN, i64::MAX);
    equal(
        rt,
        (bytes, found, tokens.at_end()),
        (bytes, wanted, wanted.is_ok()),
    );
}

#[test]
fn numbers_are_read(rt: HostRuntime) {
    for (bytes, wanted) in NUMBERS.iter().copied() {
        has_number(&rt, bytes, wanted);
    }
}

#[test]
fn numbers_of_any_length_are_read(rt: HostRuntime) -> Result<(), Fail> {
    let mut nines = vec![in rt.alloc(); b'9'; 5000]?;
    nines[0] = b'-';
    has_number(&rt, nines.as_slice(), Err(TextError::OutOfRange(HERE)));
    let mut zeros = vec![in rt.alloc(); b'0'; 5000]?;
    zeros[4999] = b'7';
    has_number(&rt, zeros.as_slice(), Ok(7));
    Ok(())
}

/// A text, and the column of the token after its first eight zeros, where it begins with them.
type Zeros = (&'static [u8], Option<u32>);

const ZERO_TEXTS: &[Zeros] = &[
    (b"0 0 0 0 0 0 0 0 7", Some(17)),
    (b"0 0 0 0 0 0 0 0 0 0", Some(17)),
    (b"0 0 0 0 0 0 0 7 0", None),
    (b"0 0 0 0 0 0 0 07 1", None),
    (b"0 0 0 0  0 0 0 0 7", None),
    (b"0 0 0 0\n0 0 0 0 7", None),
    (b"0 0 0 0 0 0 0", None),
    (b"", None),
];

/// Where the next token begins once eight zeros are passed over.
fn after_zeros(bytes: &[u8]) -> Option<u32>
    requires { length bytes.now < 2 ^ 32 - 1 }
{
    let mut tokens = Tokens::new(bytes, Comment::Never);
    if tokens.pass_zeros() {
        Some(tokens.place().column)
    } else {
        None
    }
}

#[test]
fn eight_zeros_are_passed_over(rt: HostRuntime) {
    for (bytes, wanted) in ZERO_TEXTS.iter().copied() {
        assert!(rt; bytes.len() < 100);
        equal(&rt, (bytes, after_zeros(bytes)), (bytes, wanted));
    }
}

/// Appends a line with a count, and the digits.
fn push_digits(out: &mut Vec<u8>, digits: &[u32]) -> Result<(), OutOfMemory> {
    push_ended(out, 3)?;
    for digit in digits {
        push_spaced(out, u64::from(*digit))?;
    }
    Ok(())
}

#[test]
fn a_printed_text_is_read_again(rt: HostRuntime) -> Result<(), Fail> {
    let mut out = Vec::new(rt.alloc());
    push_digits(&mut out, &[0, 9, 7])?;
    equal(&rt, out.as_slice(), b"3\n0 9 7 ".as_slice());
    assert!(rt; out.len() < 100);
    let digits = read_digits(rt.alloc(), &out)?;
    equal(&rt, digits.as_slice(), [0, 9, 7].as_slice());
    Ok(())
}

#[test]
fn the_least_and_the_greatest_number_are_printed(rt: HostRuntime) -> Result<(), Fail> {
    let mut out = Vec::new(rt.alloc());
    push_number(&mut out, i64::MIN)?;
    push_number(&mut out, i64::MAX)?;
    equal(
        &rt,
        out.as_slice(),
        b"-92233720368547758089223372036854775807".as_slice(),
    );
    Ok(())
}
