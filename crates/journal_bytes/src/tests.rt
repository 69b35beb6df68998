use super::{Refusal, read_journal, seal};
use std::alloc::{AllocError, Global};
use std::test::Fail;

/// Version 1, knapsack, four bytes of text.
const HEAD: &[u8] = b"\x00\x00\x00\x01\x01\x00\x00\x00\x040 5\n";

/// Version 2, knapsack, distance 0, four bytes of text.
const NEW_HEAD: &[u8] =
    b"\x00\x00\x00\x02\x01\x00\x00\x00\x00\x00\x00\x00\x00\x00\x00\x00\x040 5\n";

/// Version 2, knapsack, distance 2^50, no text.
const FAR_HEAD: &[u8] = b"\x00\x00\x00\x02\x01\x00\x04\x00\x00\x00\x00\x00\x00\x00\x00\x00\x00";

/// Version 2, knapsack, distance 2^50 + 1, no text.
const TOO_FAR_HEAD: &[u8] = b"\x00\x00\x00\x02\x01\x00\x04\x00\x00\x00\x00\x00\x01\x00\x00\x00\x00";

/// Version 2, knapsack, distance -1, no text.
const NEGATIVE_HEAD: &[u8] =
    b"\x00\x00\x00\x02\x01\xff\xff\xff\xff\xff\xff\xff\xff\x00\x00\x00\x00";

/// The mark of a part, knapsack, distance 0, part 1 of 3 of the journal with the digest 32 times 7, no text.
const PART_HEAD: &[u8] =
    b"PART\x01\x00\x00\x00\x00\x00\x00\x00\x00\x00\x00\x00\x01\x00\x00\x00\x03\x07\x07\x07\x07\x07\x07\x07\x07\x07\x07\x07\x07\x07\x07\x07\x07\x07\x07\x07\x07\x07\x07\x07\x07\x07\x07\x07\x07\x07\x07\x07\x07\x00\x00\x00\x00";

/// The same of part 3 of 3.
const NO_PART_HEAD: &[u8] =
    b"PART\x01\x00\x00\x00\x00\x00\x00\x00\x00\x00\x00\x00\x03\x00\x00\x00\x03\x07\x07\x07\x07\x07\x07\x07\x07\x07\x07\x07\x07\x07\x07\x07\x07\x07\x07\x07\x07\x07\x07\x07\x07\x07\x07\x07\x07\x07\x07\x07\x07\x00\x00\x00\x00";

/// The same of part 1 of 3, with a digest of four bytes.
const SHORT_PART_HEAD: &[u8] =
    b"PART\x01\x00\x00\x00\x00\x00\x00\x00\x00\x00\x00\x00\x01\x00\x00\x00\x03\x00\x00\x00\x00";

/// No best solution, the next ticket 0, no subproblems.
const EMPTY_SNAPSHOT: &[u8] = b"\x00\x00\x00\x00\x00\x00\x00\x00\x00\x00\x00\x00\x00";

/// The value 9 by the decision 7, the next ticket 3, and ticket 2 of bound -1 with the decision 5.
const SNAPSHOT: &[u8] =
    b"\x01\x00\x00\x00\x00\x00\x00\x00\x09\x00\x00\x00\x01\x00\x00\x00\x07\x00\x00\x00\x00\x00\x00\x00\x03\x00\x00\x00\x01\x00\x00\x00\x00\x00\x00\x00\x02\xff\xff\xff\xff\xff\xff\xff\xff\x00\x00\x00\x01\x00\x00\x00\x05";

/// The byte 2 tells of no best solution.
const WRONG_SNAPSHOT: &[u8] = b"\x02\x00\x00\x00\x00\x00\x00\x00\x00\x00\x00\x00\x00";

/// The value 9 by the decision 7.
const IMPROVE: &[u8] = b"\x00\x00\x00\x00\x00\x00\x00\x09\x00\x00\x00\x01\x00\x00\x00\x07";

/// Ticket 3, and one child that replaced none, of bound -1 and no decision.
const FINISH: &[u8] =
    b"\x00\x00\x00\x00\x00\x00\x00\x03\x00\x00\x00\x01\xff\xff\xff\xff\xff\xff\xff\xff\xff\xff\xff\xff\xff\xff\xff\xff\x00\x00\x00\x00";

/// A file of records with right digests, of these kinds and bodies.
fn file_of(alloc: Global, frames: &[(u8, &[u8])]) -> Result<Vec<u8>, AllocError> {
    let mut file = [0].to_vec(alloc)?;
    let mut digest = [0; 32];
    for (kind, body) in frames {
        if body.len() < 100 {
            let sealed = seal(alloc, &digest, *kind, body)?;
            let (bytes, next) = sealed;
            let _ = file.pop();
            file.push(1)?;
            file.extend_from_slice(&bytes)?;
            digest = next;
        }
    }
    Ok(file)
}

/// How many records the bytes spell after the head or the last Snapshot, or why they are refused.
fn count(alloc: Global, bytes: &[u8]) -> Result<usize, Refusal> {
    let (_, records, _) = read_journal(alloc, bytes)?;
    Ok(records.len_after_base())
}

#[test]
fn the_first_wrong_record_is_told(rt: HostRuntime) -> Result<(), Fail> {
    let alloc = rt.alloc();
    let head = (1, HEAD);
    let improve = (2, IMPROVE);
    let finish = (3, FINISH);
    for (frames, answer) in [
        ([].as_slice(), Err(Refusal::NotBegun)),
        (&[head], Ok(0)),
        (&[head, improve], Ok(1)),
        (&[head, finish, improve], Ok(2)),
        (&[improve], Err(Refusal::Malformed { offset: 0 })),
        (
            &[(1, b"\x00\x00\x00")],
            Err(Refusal::Malformed { offset: 0 }),
        ),
        (
            &[(1, b"\x00\x00\x00\x02")],
            Err(Refusal::Malformed { offset: 0 }),
        ),
        (
            &[(1, b"\x00\x00\x00\x03")],
            Err(Refusal::Version { found: 3 }),
        ),
        (&[(1, b"PART")], Err(Refusal::Malformed { offset: 0 })),
        (&[(1, PART_HEAD)], Ok(0)),
        (&[(1, PART_HEAD), (4, SNAPSHOT), finish], Ok(1)),
        (&[(1, NO_PART_HEAD)], Err(Refusal::Malformed { offset: 0 })),
        (
            &[(1, SHORT_PART_HEAD)],
            Err(Refusal::Malformed { offset: 0 }),
        ),
        (&[(1, NEW_HEAD)], Ok(0)),
        (&[(1, FAR_HEAD)], Ok(0)),
        (&[(1, TOO_FAR_HEAD)], Err(Refusal::Malformed { offset: 0 })),
        (&[(1, NEGATIVE_HEAD)], Err(Refusal::Malformed { offset: 0 })),
        (&[(1, NEW_HEAD), (4, EMPTY_SNAPSHOT), improve], Ok(1)),
        (
            &[(1, NEW_HEAD), (4, EMPTY_SNAPSHOT), improve, (4, SNAPSHOT)],
            Ok(0),
        ),
        (
            &[(1, NEW_HEAD), (4, WRONG_SNAPSHOT)],
            Err(Refusal::Malformed { offset: 59 }),
        ),
        (
            &[(1, NEW_HEAD), (4, IMPROVE)],
            Err(Refusal::Malformed { offset: 59 }),
        ),
        (
            &[head, (4, EMPTY_SNAPSHOT)],
            Err(Refusal::Malformed { offset: 51 }),
        ),
        (
            &[(1, b"\x00\x00\x00\x01")],
            Err(Refusal::Malformed { offset: 0 }),
        ),
        (
            &[(1, b"\x00\x00\x00\x01\x00\x00\x00\x00\x00")],
            Err(Refusal::Malformed { offset: 0 }),
        ),
        (&[(1, b"\x00\x00\x00\x01\x07\x00\x00\x00\x00")], Ok(0)),
        (
            &[(1, b"\x00\x00\x00\x01\x08\x00\x00\x00\x00")],
            Err(Refusal::Malformed { offset: 0 }),
        ),
        (
            &[(1, b"\x00\x00\x00\x01\xff\x00\x00\x00\x00")],
            Err(Refusal::Malformed { offset: 0 }),
        ),
        (
            &[(1, b"\x00\x00\x00\x01\x01\x00\x00\x00\x01")],
            Err(Refusal::Malformed { offset: 0 }),
        ),
        (
            &[(1, b"\x00\x00\x00\x01\x01\x00\x00\x00\x000")],
            Err(Refusal::Malformed { offset: 0 }),
        ),
        (&[head, head], Err(Refusal::Malformed { offset: 51 })),
        (&[head, (4, b"")], Err(Refusal::Malformed { offset: 51 })),
        (
            &[head, (0, IMPROVE)],
            Err(Refusal::Malformed { offset: 51 }),
        ),
        (
            &[head, (3, IMPROVE)],
            Err(Refusal::Malformed { offset: 51 }),
        ),
        (&[head, (2, FINISH)], Err(Refusal::Malformed { offset: 51 })),
        (
            &[
                head,
                (2, b"\x00\x00\x00\x00\x00\x00\x00\x09\x00\x00\x00\x00\x00"),
            ],
            Err(Refusal::Malformed { offset: 51 }),
        ),
        (
            &[
                head,
                (2, b"\x00\x00\x00\x00\x00\x00\x00\x09\xff\xff\xff\xff"),
            ],
            Err(Refusal::Malformed { offset: 51 }),
        ),
        (
            &[
                head,
                improve,
                (3, b"\x00\x00\x00\x00\x00\x00\x00\x00\xff\xff\xff\xff"),
                head,
            ],
            Err(Refusal::Malformed { offset: 105 }),
        ),
    ] {
        let bytes = file_of(alloc, frames)?;
        assert_eq!(rt; count(alloc, &bytes), answer, "of {} records", frames.len());
    }
    Ok(())
}

#[test]
fn a_wrong_record_comes_before_a_damaged_one(rt: HostRuntime) -> Result<(), Fail> {
    let alloc = rt.alloc();
    let mut bytes = file_of(alloc, &[(1, HEAD), (4, b""), (2, IMPROVE)])?;
    let _ = bytes.pop();
    assert_eq!(rt;
        count(alloc, &bytes),
        Err(Refusal::Malformed { offset: 51 })
    );
    let mut bytes = file_of(alloc, &[(1, HEAD), (4, b"")])?;
    let _ = bytes.pop();
    assert_eq!(rt; count(alloc, &bytes), Err(Refusal::Damaged { offset: 51 }));
    Ok(())
}
