ghost use Rattle.std.specs.Prelude.{◌≡◌, MatchOption, false};
ghost use Rattle.knapsack.specs.OwnWords.{packed_value, has_copies, IsTotal};
ghost use Rattle.knapsack.specs.Limits.{AreSmall};
ghost use Rattle.knapsack.specs.Shown.{instance_in, program_in};
ghost use Rattle.dp_model.specs.Solution.{SolutionGives};

use crate::instance::Knapsack;
use crate::item::Item;

/// The total weight and the total profit of copies.
#[derive(Clone, Copy)]
struct Total {
    weight: u64,
    profit: u64,
}

/// The totals of copies, one number for each item. `None` if there are more or fewer numbers than items, or if a number exceeds
/// the copies of its item.
fn total_of(items: &[Item], copies: &[u32]) -> Option<Total>
    requires { AreSmall items.now }
    ensures { MatchOption result (has_copies items.now copies.now ≡ false) (λ t. IsTotal items.now copies.now t.weight t.profit) }
{
    if copies.len() != items.len() {
        return None;
    }
    let mut weight = 0;
    let mut profit = 0;
    'items: for (number, taken) in copies.iter().enumerate() {
        let item = items[number];
        if *taken > item.copies {
            return None;
        }
        weight += u64::from(*taken) * u64::from(item.weight);
        profit += u64::from(*taken) * u64::from(item.profit);
    }
    Some(Total { weight, profit })
}

/// The total profit of copies that fit the capacity.
fn packed(model: &Knapsack, copies: &[u32]) -> Option<i64>
    ensures { result ≡ packed_value (instance_in model.now) copies.now }
{
    let total = total_of(&model.items, copies)?;
    if total.weight > model.capacity {
        return None;
    }
    Some(total.profit as i64)
}

/// The total profit of the copies that the decisions take of each item. `None` exactly if the list is no solution: it is longer
/// or shorter than the list of items, takes more copies of an item than there are, or exceeds the capacity.
pub fn value_of(model: &Knapsack, decisions: &[u32]) -> Option<i64>
    ensures own_words { result ≡ packed_value (instance_in model.now) decisions.now }
    ensures solution { SolutionGives (program_in model.now) decisions.now result }
{
    packed(model, decisions)
}
