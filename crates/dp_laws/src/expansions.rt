//! Which candidates a layer keeps, and in which order.

ghost use Rattle.std.specs.Prelude.{ℕ};
ghost use Rattle.dp_model.specs.Dp.{Dp};
ghost use Rattle.dp_laws.specs.Restricted.BestOfState.{ExpansionsAreUnique};
ghost use Rattle.dp_laws.specs.Restricted.Ordered.{IsReductionOrder, OrderIsUnique};
ghost use Rattle.dp_laws.specs.Restricted.Sorting.{SortingExpands};

/// The reduction order is strict, and of two prefixes with different states one stands before the other.
pub fn reduction_order_is_total()
    ensures { (dp : Dp) (k : ℕ) → IsReductionOrder dp k }
{}

/// A list in the reduction order is determined by its members.
pub fn order_is_unique()
    ensures { (dp : Dp) → OrderIsUnique dp }
{}

/// The candidates joined and put in order are the first of greatest value of each state in the reduction order, and each
/// list that is that is equal to them.
pub fn expansions_are_unique()
    ensures { (dp : Dp) → ExpansionsAreUnique dp }
{}

/// The candidates' places sorted by state, of each state the first, and these sorted by the reduction order, are the
/// candidates joined and put in order.
pub fn sorting_expands()
    ensures { (dp : Dp) → SortingExpands dp }
{}
