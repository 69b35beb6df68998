ghost use Rattle.std.specs.Prelude.{◌≡◌, ◌*◌, ◌≤◌, pos, neg_ℤ, true, nat_lt, length};
ghost use Rattle.std.specs.List.{list_all};
ghost use Rattle.dp_model.specs.Solution.{SolutionGives};
ghost use Rattle.one_machine.specs.OwnWords as words;
ghost use Rattle.one_machine.specs.Shown.{instance_in, program_in};

use crate::instance::OneMachine;
use pending_rows::is_order;

/// What jobs cost that follow one another from time 0 on.
fn cost(model: &OneMachine, order: &[u32]) -> u64
    requires jobs { list_all (λ v. nat_lt v (length model.now.jobs.items)) order.now ≡ true }
    requires few { length order.now ≤ 100 }
    ensures cost { result ≡ words.cost (instance_in model.now) 0 order.now }
    ensures small { result ≤ 101000000000000 }
{
    let mut time = 0u64;
    let mut total = 0u64;
    let mut rest = order;
    'jobs: while let [first, after @ ..] = rest {
        let job = *first as usize;
        total += model.penalty(time, job);
        time = model.completion(time, job);
        rest = after;
    }
    total
}

/// The negated cost of an order.
fn order_value(model: &OneMachine, order: &[u32]) -> Option<i64>
    ensures { result ≡ words.order_value (instance_in model.now) order.now }
{
    let whole = is_order(order, model.jobs.len());
    if !whole {
        return None;
    }
    Some(-(cost(model, order) as i64))
}

/// The negated weighted tardiness of an order: the jobs follow one another from time 0 on, and each costs its weight for each
/// unit of time from when it is due to its completion.
///
/// `None` exactly where the list is no order of all jobs: then it is no solution.
pub fn value_of(model: &OneMachine, decisions: &[u32]) -> Option<i64>
    ensures own_words { result ≡ words.order_value (instance_in model.now) decisions.now }
    ensures solution { SolutionGives (program_in model.now) decisions.now result }
{
    order_value(model, decisions)
}
