use crate::comparing::equal;
use problem_names::ModelName;

#[test]
fn each_problem_has_its_word(rt: HostRuntime) {
    for name in ModelName::ALL {
        equal(&rt, ModelName::named(name.text()), Some(name));
    }
    equal(&rt, ModelName::named("knapsacks"), None);
}

/// The problem of each byte, and bytes of none.
const BYTES: [(u8, Option<&str>); 10] = [
    (0, None),
    (1, Some("knapsack")),
    (2, Some("maxcut")),
    (3, Some("max2sat")),
    (4, Some("tsptw")),
    (5, Some("tardiness")),
    (6, Some("table")),
    (7, Some("qubo")),
    (8, None),
    (255, None),
];

#[test]
fn each_problem_has_its_byte(rt: HostRuntime) {
    for (byte, word) in BYTES {
        let name = ModelName::of_byte(byte);
        equal(&rt, (byte, name), (byte, word.and_then(ModelName::named)));
    }
}
