use crate::tests::{Case, is_accepted, is_printed, prints, run_line, run_on};

/// One decision, which gains 3 or 5.
const ONE_STEP: &str =
    "{\"root_value\":0,\"layers\":[{\"states\":1,\"choices\":2,\"next\":[[0,1]],\"gain\":[[3,5]],\"gap\":[[0]],\"merge\":[[0]],\"rough\":[5]},{\"states\":2,\"gap\":[[0,0],[0,0]],\"merge\":[[0,0],[0,1]],\"rough\":[0,0]}]}";

/// The same with a rough bound of 4.
const LOW_BOUND: &str =
    "{\"root_value\":0,\"layers\":[{\"states\":1,\"choices\":2,\"next\":[[0,1]],\"gain\":[[3,5]],\"gap\":[[0]],\"merge\":[[0]],\"rough\":[4]},{\"states\":2,\"gap\":[[0,0],[0,0]],\"merge\":[[0,0],[0,1]],\"rough\":[0,0]}]}";

/// The same with two states for one on the first layer.
const TWO_STATES: &str =
    "{\"root_value\":0,\"layers\":[{\"states\":2,\"choices\":2,\"next\":[[0,1]],\"gain\":[[3,5]],\"gap\":[[0]],\"merge\":[[0]],\"rough\":[5]},{\"states\":2,\"gap\":[[0,0],[0,0]],\"merge\":[[0,0],[0,1]],\"rough\":[0,0]}]}";

/// What is printed of the best solution, with status 0.
const BEST: &str = "proved\nvalue 5\nassignment 1\n";

/// A whole output with a cover, in which the root's row has the bound 5.
const COVER: &str =
    "proved\nvalue 5\nassignment 1\ncover table\ninstance 190\n{\"layers\":[{\"choices\":2,\"gain\":[[3,5]],\"gap\":[[0]],\"merge\":[[0]],\"next\":[[0,1]],\"rough\":[5],\"states\":1},{\"gap\":[[0,0],[0,0]],\"merge\":[[0,0],[0,1]],\"rough\":[0,0],\"states\":2}],\"root_value\":0}\nlayer 0 1\n5 ; 0 ; 0 r 1 r\nlayer 1 0\nend\n";

/// The same with the bound 4.
const LOW_COVER: &str =
    "proved\nvalue 5\nassignment 1\ncover table\ninstance 190\n{\"layers\":[{\"choices\":2,\"gain\":[[3,5]],\"gap\":[[0]],\"merge\":[[0]],\"next\":[[0,1]],\"rough\":[5],\"states\":1},{\"gap\":[[0,0],[0,0]],\"merge\":[[0,0],[0,1]],\"rough\":[0,0],\"states\":2}],\"root_value\":0}\nlayer 0 1\n4 ; 0 ; 0 r 1 r\nlayer 1 0\nend\n";

/// The same as the first with an instance that is no table.
const NO_TABLE: &str =
    "proved\nvalue 5\nassignment 1\ncover table\ninstance 3\n{}\nlayer 0 1\n5 ; 0 ; 0 r 1 r\nlayer 1 0\nend\n";

const CASES: &[Case] = &[
    ("solve table", ONE_STEP, BEST, 0),
    ("solve table", LOW_BOUND, "table law 5 0 0 1\n", 3),
    ("solve table", TWO_STATES, "table shape 0\n", 3),
    ("solve table", "{}", "table shape\n", 3),
    ("solve table", "{", "table json\n", 3),
    ("digest table", "{", "table json\n", 3),
    (
        "digest table",
        ONE_STEP,
        "8d9fdcd7a87ab6c6cb527d82d0ee0a3efd81d097f659f7edd772a9e55eb0bf19\n",
        0,
    ),
    ("generate table 2 0", "", "words model\n", 4),
    ("generate table x y", "", "words model\n", 4),
    ("solve table --width 3728271", ONE_STEP, "width\n", 4),
    ("check", COVER, "accepted\n", 0),
    ("check", LOW_COVER, "refused arc 0 0 1\n", 9),
    ("check", NO_TABLE, "table shape\n", 3),
];

#[test]
fn tables_are_solved_or_refused(rt: HostRuntime) {
    prints(&rt, rt.alloc(), CASES);
}

#[test]
fn the_cover_of_a_table_is_accepted(rt: HostRuntime) {
    let alloc = rt.alloc();
    let told = run_line(&rt, alloc, "solve table --cover", ONE_STEP.as_bytes());
    assert!(rt; is_accepted(&rt, alloc, &told));
}

#[test]
fn the_search_of_a_table_goes_on(rt: HostRuntime) {
    let alloc = rt.alloc();
    let line = "solve table --journal j --budget 0";
    let begun = run_on(&rt, alloc, line, ONE_STEP, &[]);
    is_printed(
        &rt,
        &begun,
        (line, ONE_STEP, "stopped budget\nvalue none\nbound 5\n", 2),
    );
    let ended = run_on(&rt, alloc, "resume j", "", begun.disk.bytes());
    is_printed(&rt, &ended, ("resume j", "", BEST, 0));
}
