//! What gaps give.

ghost use Rattle.dp_model.specs.Dp.{Dp};
ghost use Rattle.dp_model.specs.Laws.{IsLawful, IsChained};
ghost use Rattle.dp_laws.specs.GapChains.{GapsAddUp, ChainsMatch};
ghost use Rattle.dp_laws.specs.Dominance.{ContinuationsAreMatched, CompletionsAreMatched, SameStatesMatch};

/// Gaps add up along a chain of states.
pub fn gaps_add_up()
    ensures { (dp : Dp) → IsLawful dp → IsChained dp → GapsAddUp dp }
{}

/// Along a chain of states each continuation of the last is matched by one of the first, within the sum of the gaps.
pub fn chains_match()
    ensures { (dp : Dp) → IsLawful dp → ChainsMatch dp }
{}

/// Where a prefix dominates a state with a value, whatever that value is, the continuations of the state are matched.
pub fn continuations_are_matched()
    ensures { (dp : Dp) → IsLawful dp → ContinuationsAreMatched dp }
{}

/// The completions of a dominated prefix are matched by the prefix that dominates it.
pub fn completions_are_matched()
    ensures { (dp : Dp) → IsLawful dp → CompletionsAreMatched dp }
{}

/// Of two prefixes of one depth and state, the one of no less value matches the completions of the other.
pub fn same_states_match()
    ensures { (dp : Dp) → IsLawful dp → SameStatesMatch dp }
{}
