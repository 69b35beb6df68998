use solver_words::read_words;
use std::alloc::Global;
use std::process::Abort;

/// The words of a line, which `|` separates.
fn words_of(rt: &impl Abort, alloc: Global, line: &str) -> Vec<String> {
    let mut words = Vec::new(alloc);
    for word in line.split('|') {
        let word = String::from_str(alloc, word).expect(rt, "a word");
        words.push(word).expect(rt, "the words");
    }
    words
}

const DEFAULTS: &str =
    "JobSettings { width: None, workers: 1, budget: 18446744073709551615, cutset: LastExactLayer, stats: false, within: 0, cover_words: None, parts: 1 }";

/// Words and what they ask for, or why they are refused.
const ASKED: &[(&str, &str)] = &[
    (
        "solve|knapsack",
        "Ok(Solve { model: Knapsack, settings: DEFAULTS, journal: None, part: None })",
    ),
    (
        "solve|--width=64|--cover|maxcut|--workers|2|--budget=9|--cutset|lel|--journal=a=b|--cover-words|50|--within|0|--stats",
        "Ok(Solve { model: MaxCut, settings: JobSettings { width: Some(64), workers: 2, budget: 9, cutset: LastExactLayer, stats: true, within: 0, cover_words: Some(50), parts: 1 }, journal: Some(\"a=b\"), part: None })",
    ),
    (
        "resume|j|--cutset=frontier",
        "Ok(Resume { path: \"j\", settings: JobSettings { width: None, workers: 1, budget: 18446744073709551615, cutset: Frontier, stats: false, within: 0, cover_words: None, parts: 1 }, incumbent: false })",
    ),
    (
        "solve|max2sat|--cover",
        "Ok(Solve { model: MaxTwoSat, settings: JobSettings { width: None, workers: 1, budget: 18446744073709551615, cutset: LastExactLayer, stats: false, within: 0, cover_words: Some(67108864), parts: 1 }, journal: None, part: None })",
    ),
    (
        "solve|max2sat|--cover-words=5|--within=1125899906842624",
        "Ok(Solve { model: MaxTwoSat, settings: JobSettings { width: None, workers: 1, budget: 18446744073709551615, cutset: LastExactLayer, stats: false, within: 1125899906842624, cover_words: None, parts: 1 }, journal: None, part: None })",
    ),
    (
        "solve|max2sat|--journal|j|--within=7",
        "Ok(Solve { model: MaxTwoSat, settings: JobSettings { width: None, workers: 1, budget: 18446744073709551615, cutset: LastExactLayer, stats: false, within: 7, cover_words: None, parts: 1 }, journal: Some(\"j\"), part: None })",
    ),
    (
        "solve|knapsack|--parts|064|--workers=16",
        "Ok(Solve { model: Knapsack, settings: JobSettings { width: None, workers: 16, budget: 18446744073709551615, cutset: LastExactLayer, stats: false, within: 0, cover_words: None, parts: 64 }, journal: None, part: None })",
    ),
    (
        "resume|j|--parts=2",
        "Ok(Resume { path: \"j\", settings: JobSettings { width: None, workers: 1, budget: 18446744073709551615, cutset: LastExactLayer, stats: false, within: 0, cover_words: None, parts: 2 }, incumbent: false })",
    ),
    (
        "resume|--|-j",
        "Ok(Resume { path: \"-j\", settings: DEFAULTS, incumbent: false })",
    ),
    (
        "resume|--incumbent|j",
        "Ok(Resume { path: \"j\", settings: DEFAULTS, incumbent: true })",
    ),
    (
        "solve|knapsack|--part|0003/1024",
        "Ok(Solve { model: Knapsack, settings: DEFAULTS, journal: None, part: Some(PartNumber { index: 3, of: 1024 }) })",
    ),
    ("check", "Ok(Check)"),
    ("join", "Ok(Join)"),
    (
        "split|j|--part|0003/1024",
        "Ok(Split { path: \"j\", part: PartNumber { index: 3, of: 1024 } })",
    ),
    (
        "split|--part=0/1|--|-j",
        "Ok(Split { path: \"-j\", part: PartNumber { index: 0, of: 1 } })",
    ),
    ("join|--journal|j", "Ok(JoinReports { path: \"j\" })"),
    ("digest|tsptw", "Ok(Digest { model: TspWindows })"),
    (
        "generate|maxcut|024|--solve|7",
        "Ok(Generate { model: MaxCut, n: 24, seed: 7, solve: true })",
    ),
    ("solve", "Err(Usage)"),
    ("help", "Err(Usage)"),
    ("solve|--help", "Err(Usage)"),
    ("resume|j|--within=0", "Err(Usage)"),
    ("solve|knapsack|--stats|--stats", "Err(Usage)"),
    ("solve|knapsack|--width|-3", "Err(Usage)"),
    ("solve|knapsack|--width=", "Err(Usage)"),
    ("solve|knapsack|--width|", "Err(Usage)"),
    ("solve|knapsack|--stats=1", "Err(Usage)"),
    ("solve|--|knapsack|--stats", "Err(Usage)"),
    ("join|x", "Err(Usage)"),
    ("join|x|--journal=j", "Err(Usage)"),
    ("split|j", "Err(Usage)"),
    ("split|--part=0/2", "Err(Usage)"),
    ("split|j|--part=0/2|--part=0/2", "Err(Usage)"),
    ("split|j|--part=0/2|--stats", "Err(Usage)"),
    ("split|j|--part=2/2", "Err(Number { option: \"part\" })"),
    ("split|j|--part=0/1025", "Err(Number { option: \"part\" })"),
    ("resume|j|--part=0/1", "Err(Usage)"),
    ("solve|knapsack|--part=0/2|--journal=j", "Err(Usage)"),
    ("solve|knapsack|--part=0/2|--within=1", "Err(Usage)"),
    (
        "solve|knapsack|--part=2/2|--within=1|--journal=j",
        "Err(Number { option: \"part\" })",
    ),
    (
        "solve|knapsack|--part=0/1025",
        "Err(Number { option: \"part\" })",
    ),
    (
        "solve|knapsack|--part=0/0",
        "Err(Number { option: \"part\" })",
    ),
    (
        "solve|knapsack|--part=1",
        "Err(Number { option: \"part\" })",
    ),
    (
        "solve|knapsack|--part=0/2/",
        "Err(Number { option: \"part\" })",
    ),
    (
        "solve|knapsack|--part=x|--within=x",
        "Err(Number { option: \"within\" })",
    ),
    ("solve|help", "Err(Model)"),
    ("solve|knap|--width=0", "Err(Model)"),
    (
        "solve|knapsack|--cutset=x|--width=0",
        "Err(Number { option: \"width\" })",
    ),
    (
        "solve|knapsack|--parts=0|--workers=17",
        "Err(Number { option: \"workers\" })",
    ),
    (
        "solve|knapsack|--budget=x|--parts=65",
        "Err(Number { option: \"parts\" })",
    ),
    ("resume|j|--parts=0", "Err(Number { option: \"parts\" })"),
    ("generate|maxcut|24|7|--parts=8", "Err(Usage)"),
    (
        "solve|knapsack|--cutset=frontie|--cover-words=x",
        "Err(Cutset)",
    ),
    (
        "solve|knapsack|--cutset=frontier|--within=x|--cover-words=x",
        "Err(Number { option: \"cover-words\" })",
    ),
    ("generate|tsptw|0|x", "Err(Number { option: \"n\" })"),
    ("generate|knapsack|0|+1", "Err(Number { option: \"seed\" })"),
];

/// What the words of a line ask for, as it is shown.
fn asked(rt: &impl Abort, alloc: Global, line: &str) -> String {
    let words = words_of(rt, alloc, line);
    let answer = read_words(alloc, words.as_slice());
    format!(in alloc; "{answer:?}").expect(rt, "a text")
}

#[test]
fn lines_and_what_they_ask_for(rt: HostRuntime) {
    let alloc = rt.alloc();
    for (line, wanted) in ASKED.iter().copied() {
        let shown = asked(&rt, alloc, line);
        let wanted = wanted.replace(alloc, "DEFAULTS", DEFAULTS);
        let wanted = wanted.expect(&rt, "a text");
        assert_eq!(rt; shown.as_str(), wanted.as_str(), "{line}");
    }
}
