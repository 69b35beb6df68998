use crate::tests::{Case, prints};

/// One item of profit 4 and weight 1 in a room of 1.
const ONE_ITEM: &str = "1 1\n4 1\n";

/// An output for the part of two that leaves the item.
const LEFT: &str =
    "proved\nvalue 0\nassignment 0\ncover knapsack\npart 0 2\ninstance 8\n1 1\n4 1\nlayer 0 1\n0 ; 1 ; 0 0\nlayer 1 1\n0 ; 1\nend\n";

/// An output for the part that takes it.
const TAKEN: &str =
    "proved\nvalue 4\nassignment 1\ncover knapsack\npart 1 2\ninstance 8\n1 1\n4 1\nlayer 0 1\n4 ; 1 ; 1 0\nlayer 1 1\n0 ; 0\nend\n";

const CASES: &[Case] = &[
    (
        "solve knapsack --part 0/2",
        ONE_ITEM,
        "proved\nvalue 0\nassignment 0\n",
        0,
    ),
    (
        "solve knapsack --part=1/2",
        ONE_ITEM,
        "proved\nvalue 4\nassignment 1\n",
        0,
    ),
    ("solve knapsack --part 2/3", ONE_ITEM, "infeasible\n", 1),
    (
        "solve knapsack --part 0/2",
        "1 1\n4 x\n",
        "instance not-number 2 3\n",
        3,
    ),
    (
        "solve knapsack --part 1/2",
        "0 1\n",
        "proved\nvalue 0\nassignment\n",
        0,
    ),
    ("check", LEFT, "accepted\n", 0),
    ("check", TAKEN, "accepted\n", 0),
    (
        "check",
        "proved\nvalue 0\nassignment 0\ncover knapsack\npart 1 2\ninstance 8\n1 1\n4 1\nlayer 0 1\n0 ; 1 ; 0 0\nlayer 1 1\n0 ; 1\nend\n",
        "refused assignment\n",
        9,
    ),
    (
        "check",
        "proved\nvalue 0\nassignment 0\ncover knapsack\ninstance 8\n1 1\n4 1\nlayer 0 1\n0 ; 1 ; 0 0\nlayer 1 1\n0 ; 1\nend\n",
        "refused target 0 0 1\n",
        9,
    ),
];

/// Both outputs, in order.
const BOTH: &str =
    "proved\nvalue 0\nassignment 0\ncover knapsack\npart 0 2\ninstance 8\n1 1\n4 1\nlayer 0 1\n0 ; 1 ; 0 0\nlayer 1 1\n0 ; 1\nend\nproved\nvalue 4\nassignment 1\ncover knapsack\npart 1 2\ninstance 8\n1 1\n4 1\nlayer 0 1\n4 ; 1 ; 1 0\nlayer 1 1\n0 ; 0\nend\n";

/// The same with the bound of the root of the first part raised to 1.
const RAISED: &str =
    "proved\nvalue 0\nassignment 0\ncover knapsack\npart 0 2\ninstance 8\n1 1\n4 1\nlayer 0 1\n1 ; 1 ; 0 0\nlayer 1 1\n0 ; 1\nend\nproved\nvalue 4\nassignment 1\ncover knapsack\npart 1 2\ninstance 8\n1 1\n4 1\nlayer 0 1\n4 ; 1 ; 1 0\nlayer 1 1\n0 ; 0\nend\n";

/// What they are joined to.
const JOINED: &str =
    "proved\nvalue 4\nassignment 1\ncover knapsack\ninstance 8\n1 1\n4 1\nlayer 0 1\n4 ; 1 ; 0 0 1 1\nlayer 1 2\n0 ; 1\n0 ; 0\nend\n";

const JOINS: &[Case] = &[
    ("join", BOTH, JOINED, 0),
    ("check", JOINED, "accepted\n", 0),
    ("join", TAKEN, "parts order 0\n", 3),
    ("join", LEFT, "parts order 1\n", 3),
    ("join", RAISED, "part 0 refused root\n", 9),
    ("join", JOINED, "parts order 0\n", 3),
    ("join", "", "cover end-of-text 1 1\n", 3),
];

#[test]
fn outputs_of_parts_are_joined(rt: HostRuntime) {
    prints(&rt, rt.alloc(), JOINS);
}

#[test]
fn parts_are_solved_and_checked(rt: HostRuntime) {
    prints(&rt, rt.alloc(), CASES);
}
