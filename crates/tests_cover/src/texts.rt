use crate::checking::{has_layers, has_row, items};
use crate::tests::BOTH;
use bound_cover::CoverArc;
use cover_text::{CoverError, CoverText, push_cover, read_cover};
use dp_model::DpModel;
use problem_names::ModelName;
use std::alloc::Global;
use std::process::Abort;
use tokens::{Place, TextError};

const TEXT: &[u8] =
    b"proved\nvalue 4\nassignment 1\ncover knapsack\ninstance 8\n1 1\n4 1\nlayer 0 1\n4 ; 1 ; 0 0 1 0\nlayer 1 1\n0 ; 1\nend\n";

/// What is wrong, the text, and the fault.
type Faulty = (&'static str, &'static [u8], CoverError);

const FAULTS: &[Faulty] = &[
    (
        "no bytes",
        b"",
        CoverError::Text(TextError::EndOfText(Place { line: 1, column: 1 })),
    ),
    (
        "wrong first word",
        b"prooved",
        CoverError::Word(Place { line: 1, column: 1 }),
    ),
    (
        "a first byte that is not ASCII",
        b"\xc3",
        CoverError::Text(TextError::NotAscii(Place { line: 1, column: 1 })),
    ),
    (
        "no end",
        b"proved\nvalue 4\nassignment 1\ncover knapsack\ninstance 8\n1 1\n4 1\nlayer 0 1\n4 ; 1 ; 0 0 1 0\nlayer 1 1\n0 ; 1\n",
        CoverError::Text(TextError::EndOfText(Place {
            line: 12,
            column: 1,
        })),
    ),
    (
        "a token after the end",
        b"proved\nvalue 4\nassignment 1\ncover knapsack\ninstance 8\n1 1\n4 1\nlayer 0 1\n4 ; 1 ; 0 0 1 0\nlayer 1 1\n0 ; 1\nend\nx",
        CoverError::Text(TextError::Trailing(Place {
            line: 13,
            column: 1,
        })),
    ),
    (
        "a byte after the end that is not ASCII",
        b"proved\nvalue 4\nassignment 1\ncover knapsack\ninstance 8\n1 1\n4 1\nlayer 0 1\n4 ; 1 ; 0 0 1 0\nlayer 1 1\n0 ; 1\nend\n\xc3",
        CoverError::Text(TextError::NotAscii(Place {
            line: 13,
            column: 1,
        })),
    ),
    (
        "a row's line ends after its bound",
        b"proved\nvalue 4\nassignment 1\ncover knapsack\ninstance 8\n1 1\n4 1\nlayer 0 1\n4 ; 1 ; 0 0 1 0\nlayer 1 1\n0\nend\n",
        CoverError::Word(Place {
            line: 12,
            column: 1,
        }),
    ),
    (
        "the same before a byte that is not ASCII",
        b"proved\nvalue 4\nassignment 1\ncover knapsack\ninstance 8\n1 1\n4 1\nlayer 0 1\n4 ; 1 ; 0 0 1 0\nlayer 1 1\n0\n\xc3end\n",
        CoverError::Text(TextError::NotAscii(Place {
            line: 12,
            column: 1,
        })),
    ),
    (
        "the same at the end",
        b"proved\nvalue 4\nassignment 1\ncover knapsack\ninstance 8\n1 1\n4 1\nlayer 0 1\n4 ; 1 ; 0 0 1 0\nlayer 1 1\n0",
        CoverError::Text(TextError::EndOfText(Place {
            line: 11,
            column: 2,
        })),
    ),
    (
        "a line ends between d and t",
        b"proved\nvalue 4\nassignment 1\ncover knapsack\ninstance 8\n1 1\n4 1\nlayer 0 1\n4 ; 1 ; 0 0 1\nlayer 1 1\n0 ; 1\nend\n",
        CoverError::Word(Place {
            line: 10,
            column: 1,
        }),
    ),
    (
        "a bound above its range",
        b"proved\nvalue 4\nassignment 1\ncover knapsack\ninstance 8\n1 1\n4 1\nlayer 0 1\n4611686018427387905 ; 1 ; 0 0 1 0\nlayer 1 1\n0 ; 1\nend\n",
        CoverError::Text(TextError::OutOfRange(Place { line: 9, column: 1 })),
    ),
    (
        "a bound that is no number",
        b"proved\nvalue 4\nassignment 1\ncover knapsack\ninstance 8\n1 1\n4 1\nlayer 0 1\nx ; 1 ; 0 0 1 0\nlayer 1 1\n0 ; 1\nend\n",
        CoverError::Text(TextError::NotNumber(Place { line: 9, column: 1 })),
    ),
    (
        "no semicolon",
        b"proved\nvalue 4\nassignment 1\ncover knapsack\ninstance 8\n1 1\n4 1\nlayer 0 1\n4 1 ; 0 0 1 0\nlayer 1 1\n0 ; 1\nend\n",
        CoverError::Word(Place { line: 9, column: 3 }),
    ),
    (
        "a word outside 64 bits",
        b"proved\nvalue 4\nassignment 1\ncover knapsack\ninstance 8\n1 1\n4 1\nlayer 0 1\n4 ; 1 ; 0 0 1 0\nlayer 1 1\n0 ; 9223372036854775808\nend\n",
        CoverError::Text(TextError::OutOfRange(Place {
            line: 11,
            column: 5,
        })),
    ),
    (
        "a target that is none",
        b"proved\nvalue 4\nassignment 1\ncover knapsack\ninstance 8\n1 1\n4 1\nlayer 0 1\n4 ; 1 ; 0 0 1 s\nlayer 1 1\n0 ; 1\nend\n",
        CoverError::Text(TextError::NotNumber(Place {
            line: 9,
            column: 15,
        })),
    ),
    (
        "a decision outside 32 bits",
        b"proved\nvalue 4\nassignment 1\ncover knapsack\ninstance 8\n1 1\n4 1\nlayer 0 1\n4 ; 1 ; 0 0 4294967296 0\nlayer 1 1\n0 ; 1\nend\n",
        CoverError::Text(TextError::OutOfRange(Place {
            line: 9,
            column: 13,
        })),
    ),
    (
        "another layer's number",
        b"proved\nvalue 4\nassignment 1\ncover knapsack\ninstance 8\n1 1\n4 1\nlayer 0 1\n4 ; 1 ; 0 0 1 0\nlayer 2 1\n0 ; 1\nend\n",
        CoverError::Word(Place {
            line: 10,
            column: 7,
        }),
    ),
    (
        "a further layer number's zero",
        b"proved\nvalue 4\nassignment 1\ncover knapsack\ninstance 8\n1 1\n4 1\nlayer 0 1\n4 ; 1 ; 0 0 1 0\nlayer 01 1\n0 ; 1\nend\n",
        CoverError::Word(Place {
            line: 10,
            column: 7,
        }),
    ),
    (
        "too few rows",
        b"proved\nvalue 4\nassignment 1\ncover knapsack\ninstance 8\n1 1\n4 1\nlayer 0 1\n4 ; 1 ; 0 0 1 0\nlayer 1 2\n0 ; 1\nend\n",
        CoverError::Text(TextError::NotNumber(Place {
            line: 12,
            column: 1,
        })),
    ),
    (
        "too many rows",
        b"proved\nvalue 4\nassignment 1\ncover knapsack\ninstance 8\n1 1\n4 1\nlayer 0 1\n4 ; 1 ; 0 0 1 0\nlayer 1 0\n0 ; 1\nend\n",
        CoverError::Word(Place {
            line: 11,
            column: 1,
        }),
    ),
    (
        "another problem",
        b"proved\nvalue 4\nassignment 1\ncover backpack\ninstance 8\n1 1\n4 1\nlayer 0 1\n4 ; 1 ; 0 0 1 0\nlayer 1 1\n0 ; 1\nend\n",
        CoverError::Word(Place { line: 4, column: 7 }),
    ),
    (
        "an instance of too many bytes",
        b"proved\nvalue 4\nassignment 1\ncover knapsack\ninstance 80\n1 1\n4 1\nlayer 0 1\n4 ; 1 ; 0 0 1 0\nlayer 1 1\n0 ; 1\nend\n",
        CoverError::Text(TextError::EndOfText(Place {
            line: 13,
            column: 1,
        })),
    ),
    (
        "a token after BYTES",
        b"proved\nvalue 4\nassignment 1\ncover knapsack\ninstance 8 1\n1 1\n4 1\nlayer 0 1\n4 ; 1 ; 0 0 1 0\nlayer 1 1\n0 ; 1\nend\n",
        CoverError::Text(TextError::Trailing(Place {
            line: 5,
            column: 12,
        })),
    ),
    (
        "BYTES outside 32 bits",
        b"proved\nvalue 4\nassignment 1\ncover knapsack\ninstance 4294967296\n1 1\n4 1\nlayer 0 1\n4 ; 1 ; 0 0 1 0\nlayer 1 1\n0 ; 1\nend\n",
        CoverError::Text(TextError::OutOfRange(Place {
            line: 5,
            column: 10,
        })),
    ),
    (
        "taken without finished",
        b"proved\nvalue 4\nassignment 1\ntaken 1\ncover knapsack\ninstance 8\n1 1\n4 1\nlayer 0 1\n4 ; 1 ; 0 0 1 0\nlayer 1 1\n0 ; 1\nend\n",
        CoverError::Word(Place { line: 5, column: 1 }),
    ),
    (
        "a count of 21 digits",
        b"proved\nvalue 4\nassignment 1\ntaken 111111111111111111111\nfinished 1\ncover knapsack\ninstance 8\n1 1\n4 1\nlayer 0 1\n4 ; 1 ; 0 0 1 0\nlayer 1 1\n0 ; 1\nend\n",
        CoverError::Word(Place { line: 4, column: 7 }),
    ),
    (
        "a distance below 0",
        b"proved within -1\nvalue 4\n",
        CoverError::Text(TextError::OutOfRange(Place {
            line: 1,
            column: 15,
        })),
    ),
    (
        "a distance above 2^50",
        b"proved within 1125899906842625\nvalue 4\n",
        CoverError::Text(TextError::OutOfRange(Place {
            line: 1,
            column: 15,
        })),
    ),
    (
        "no distance",
        b"proved within value 4\n",
        CoverError::Text(TextError::NotNumber(Place {
            line: 1,
            column: 15,
        })),
    ),
    (
        "another word than within",
        b"proved about 2\nvalue 4\n",
        CoverError::Word(Place { line: 1, column: 8 }),
    ),
    (
        "a value outside 64 bits",
        b"proved\nvalue 9223372036854775808\nassignment 1\ncover knapsack\ninstance 8\n1 1\n4 1\nlayer 0 1\n4 ; 1 ; 0 0 1 0\nlayer 1 1\n0 ; 1\nend\n",
        CoverError::Text(TextError::OutOfRange(Place { line: 2, column: 7 })),
    ),
    (
        "a decision of the assignment below 0",
        b"proved\nvalue 4\nassignment -1\ncover knapsack\ninstance 8\n1 1\n4 1\nlayer 0 1\n4 ; 1 ; 0 0 1 0\nlayer 1 1\n0 ; 1\nend\n",
        CoverError::Text(TextError::OutOfRange(Place {
            line: 3,
            column: 12,
        })),
    ),
    (
        "an instance that ends in mid-line and a fault on it",
        b"proved\nvalue 4\nassignment 1\ncover knapsack\ninstance 8\n1 1\n4 1 lair 0 1\n4 ; 1 ; 0 0 1 0\nlayer 1 1\n0 ; 1\nend\n",
        CoverError::Word(Place { line: 7, column: 5 }),
    ),
];

/// The fault of the text.
fn has_fault(rt: &impl Abort, alloc: Global, faulty: &Faulty) {
    let (what, text, fault) = *faulty;
    assert!(rt; text.len() < 1_000);
    let found = read_cover(alloc, text).err();
    assert_eq!(rt; found, Some(fault), "at {what}");
}

#[test]
fn the_first_fault_of_a_text_is_answered(rt: HostRuntime) {
    for faulty in FAULTS {
        has_fault(&rt, rt.alloc(), faulty);
    }
}

/// The text of a cover.
pub fn read(rt: &impl Abort, alloc: Global, text: &[u8]) -> CoverText {
    assert!(rt; text.len() < 1_000);
    read_cover(alloc, text).expect(rt, "a cover")
}

/// The reported value, distance and assignment.
type Claim = (Option<i64>, i64, &'static [u32]);

/// The text, and what stands before its rows: the problem, the claim and the instance.
type Head = (&'static [u8], ModelName, Claim, &'static [u8]);

const HEADS: &[Head] = &[
    (TEXT, ModelName::Knapsack, (Some(4), 0, &[1]), b"1 1\n4 1\n"),
    (
        b"proved within 2\nvalue 120\nassignment 0 1 1\ncover knapsack\ninstance 20\n3 10\n60 5\n50 4\n70 6\nend\n",
        ModelName::Knapsack,
        (Some(120), 2, &[0, 1, 1]),
        b"3 10\n60 5\n50 4\n70 6\n",
    ),
    (
        b"proved within 1125899906842624\nvalue 4\nassignment 1\ncover knapsack\ninstance 8\n1 1\n4 1\nend\n",
        ModelName::Knapsack,
        (Some(4), 1_125_899_906_842_624, &[1]),
        b"1 1\n4 1\n",
    ),
    (OTHER_FORMS, ModelName::TspWindows, (None, 0, &[]), b"layer"),
];

/// What stands before the rows.
fn has_head(rt: &impl Abort, alloc: Global, head: &Head) {
    let (text, model, claim, instance) = *head;
    let found = read(rt, alloc, text);
    let found_claim = (found.best, found.within, found.assignment.as_slice());
    let found_head = (found.model, found_claim, found.instance.as_slice());
    assert_eq!(rt; found_head, (model, claim, instance));
}

#[test]
fn the_lines_before_the_rows_are_read(rt: HostRuntime) {
    for head in HEADS {
        has_head(&rt, rt.alloc(), head);
    }
}

#[test]
fn the_rows_of_a_small_knapsack_are_read(rt: HostRuntime) {
    let text = read(&rt, rt.alloc(), TEXT);
    has_layers(&rt, &text.cover, &[1, 1]);
    has_row(&rt, &text.cover, 0, 0, (Some(4), &[1], Some(BOTH)));
    has_row(&rt, &text.cover, 1, 0, (Some(0), &[1], None));
}

const OTHER_FORMS: &[u8] =
    b"infeasible\ntaken 3\nfinished 00000000000000000003\ncover tsptw\ninstance 5\nlayerlayer 0 2\nnone ; ;\n-4611686018427387904 ; -9223372036854775808 5 ; 0 r 4294967295 4294967295\nend";

const TO_THE_LAST: &[CoverArc] = &[
    CoverArc {
        decision: 0,
        target: None,
    },
    CoverArc {
        decision: 4_294_967_295,
        target: Some(4_294_967_295),
    },
];

#[test]
fn other_forms_of_rows_are_read(rt: HostRuntime) {
    let text = read(&rt, rt.alloc(), OTHER_FORMS);
    has_layers(&rt, &text.cover, &[2]);
    has_row(&rt, &text.cover, 0, 0, (None, &[], Some(&[])));
    let bound = Some(-4_611_686_018_427_387_904);
    has_row(
        &rt,
        &text.cover,
        0,
        1,
        (bound, &[i64::MIN, 5], Some(TO_THE_LAST)),
    );
}

/// A text that begins with the one and goes on with the other.
pub fn joined(rt: &impl Abort, alloc: Global, head: &[u8], rest: &[u8]) -> Vec<u8> {
    let mut text = head.to_vec(alloc).expect(rt, "a text");
    text.extend_from_slice(rest).expect(rt, "a text");
    text
}

/// The sections of a cover that is read are printed as they were.
fn are_printed<M: DpModel>(rt: &impl Abort, alloc: Global, model: &M, sections: &[u8]) {
    let head = b"infeasible cover knapsack instance 0\n";
    let text = joined(rt, alloc, head, sections);
    let text = read(rt, alloc, text.as_slice());
    let mut out = Vec::new(alloc);
    push_cover(&mut out, model, &text.cover).expect(rt, "a text");
    assert_eq!(rt; out.as_slice(), sections);
}

#[test]
fn the_sections_of_a_cover_are_printed(rt: HostRuntime) {
    let model = items(&rt, rt.alloc(), b"1 1\n4 1\n");
    let sections: &[&[u8]] = &[
        b"layer 0 1\n4 ; 1 ; 0 0 1 0\nlayer 1 1\n0 ; 1\nend\n",
        b"end\n",
        b"layer 0 0\nlayer 1 2\nnone ; ;\n-4 ; -5 6 ; 0 r 7 8\nend\n",
    ];
    for sections in sections.iter().copied() {
        are_printed(&rt, rt.alloc(), &model, sections);
    }
}
