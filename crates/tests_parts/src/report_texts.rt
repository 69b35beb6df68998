//! Texts of the reports of parts, read.

use part_text::{ReadReportsError, SettledReport, read_reports};
use std::alloc::Global;
use std::process::Abort;
use tokens::{InstanceError, InstanceFault, Place};

/// The digest of 32 bytes from 0 on, as a report has it.
const DIGITS: &str = "000102030405060708090a0b0c0d0e0f101112131415161718191a1b1c1d1e1f";

/// The same digest as it is shown.
const SHOWN: &str =
    "[0, 1, 2, 3, 4, 5, 6, 7, 8, 9, 10, 11, 12, 13, 14, 15, 16, 17, 18, 19, 20, 21, 22, 23, 24, 25, 26, 27, 28, 29, 30, 31]";

/// Texts and the reports that they spell. DIGEST stands for the digest.
const SPELLED: &[(&str, &str)] = &[
    (
        "settled\npart 0/1\njournal DIGEST\nvalue none\n",
        "[SettledReport { report: PartReport { index: 0, of: 1, digest: DIGEST, best: None }, within: 0 }]",
    ),
    (
        " settled part 00/04 journal DIGEST value 120\tassignment 0 1 1",
        "[SettledReport { report: PartReport { index: 0, of: 4, digest: DIGEST, best: Some(Incumbent { value: 120, decisions: [0, 1, 1] }) }, within: 0 }]",
    ),
    (
        "settled within 7\npart 3/2\njournal DIGEST\nvalue -5\nassignment 4294967295\ntaken 3\nfinished 2\nsettled\npart 1/4294967295\njournal DIGEST\nvalue 0\nassignment\n",
        "[SettledReport { report: PartReport { index: 3, of: 2, digest: DIGEST, best: Some(Incumbent { value: -5, decisions: [4294967295] }) }, within: 7 }, SettledReport { report: PartReport { index: 1, of: 4294967295, digest: DIGEST, best: Some(Incumbent { value: 0, decisions: [] }) }, within: 0 }]",
    ),
];

/// A text, and its first fault with its line and column.
type Faulty = (&'static str, InstanceFault, u32, u32);

/// Texts that spell no reports.
const FAULTY: &[Faulty] = &[
    ("", InstanceFault::EndOfText, 1, 1),
    ("stopped budget\npart 0/1\n", InstanceFault::Word, 1, 1),
    ("proved\nvalue 1\n", InstanceFault::Word, 1, 1),
    ("settled within 0\n", InstanceFault::OutOfRange, 1, 16),
    ("settled within x\n", InstanceFault::NotNumber, 1, 16),
    ("settled\nvalue none\n", InstanceFault::Word, 2, 1),
    ("settled\npart 0 1\n", InstanceFault::Word, 2, 6),
    ("settled\npart /1\n", InstanceFault::Word, 2, 6),
    ("settled\npart 0/1/2\n", InstanceFault::Word, 2, 6),
    ("settled\npart 0/4294967296\n", InstanceFault::Word, 2, 6),
    ("settled\npart 0/1\njournal 00\n", InstanceFault::Word, 3, 9),
    (
        "settled\npart 0/1\njournal DIGEST0\n",
        InstanceFault::Word,
        3,
        9,
    ),
    (
        "settled\npart 0/1\njournal AAAAAAAAAAAAAAAAAAAAAAAAAAAAAAAAAAAAAAAAAAAAAAAAAAAAAAAAAAAAAAAA\n",
        InstanceFault::Word,
        3,
        9,
    ),
    (
        "settled\npart 0/1\njournal DIGEST\nvalue 9223372036854775808\n",
        InstanceFault::OutOfRange,
        4,
        7,
    ),
    (
        "settled\npart 0/1\njournal DIGEST\nvalue 1\n",
        InstanceFault::EndOfText,
        5,
        1,
    ),
    (
        "settled\npart 0/1\njournal DIGEST\nvalue 1\nassignment 1 4294967296\n",
        InstanceFault::OutOfRange,
        5,
        14,
    ),
    (
        "settled\npart 0/1\njournal DIGEST\nvalue none\nbound 7\n",
        InstanceFault::Word,
        5,
        1,
    ),
    (
        "settled\npart 0/1\njournal DIGEST\nvalue none\ntaken 1\nfinished -1\n",
        InstanceFault::Word,
        6,
        10,
    ),
    (
        "settled\npart 0/1\njournal DIGEST\nvalue none\nsettled\nü",
        InstanceFault::NotAscii,
        6,
        1,
    ),
];

/// The text with the digest in it.
fn with_digest(rt: &impl Abort, alloc: Global, text: &str, digest: &str) -> String {
    let whole = text.replace(alloc, "DIGEST", digest);
    whole.expect(rt, "a text")
}

/// What is read of the text with the digest in it.
fn read(
    rt: &impl Abort,
    alloc: Global,
    text: &str,
) -> Result<Vec<SettledReport>, ReadReportsError> {
    let whole = with_digest(rt, alloc, text, DIGITS);
    let bytes = whole.as_bytes();
    assert!(rt; bytes.len() < 1_000, "a short text");
    read_reports(alloc, bytes)
}

#[test]
fn reports_are_read_one_after_another(rt: HostRuntime) {
    let alloc = rt.alloc();
    for (text, wanted) in SPELLED.iter().copied() {
        let reports = read(&rt, alloc, text).expect(&rt, "reports");
        let shown = format!(in alloc; "{reports:?}").expect(&rt, "a text");
        let wanted = with_digest(&rt, alloc, wanted, SHOWN);
        assert_eq!(rt; shown.as_str(), wanted.as_str(), "{text}");
    }
}

#[test]
fn the_first_fault_is_told_with_its_place(rt: HostRuntime) {
    let alloc = rt.alloc();
    for (text, fault, line, column) in FAULTY.iter().copied() {
        let place = Place { line, column };
        let found = read(&rt, alloc, text).err();
        let wanted = ReadReportsError::Text(InstanceError { fault, place });
        assert_eq!(rt; found, Some(wanted), "{text}");
    }
}
