//! The problem of a name.

pub use knapsack::Knapsack;
pub use max_cut::MaxCut;
pub use max_two_sat::MaxTwoSat;
pub use one_machine::OneMachine;
pub use pair_problem::PairModel;
pub use problem_names::ModelName;
pub use qubo::Qubo;
pub use table_model::TableModel;
pub use tsp_windows::TspWindows;

/// Calls a function for the problem of a name. The function's first type parameter is the problem. No other place chooses a problem.
///
/// `by_name!(name, read(alloc, text))` calls `read::<P>(alloc, text)` for the problem `P` of that name, and
/// `by_name!(name, read::<D>(alloc, text))` calls `read::<P, D>(alloc, text)`.
#[macro_export]
macro_rules! by_name {
    ($name:expr, $call:ident $(::<$($other:ty),*>)? ($($argument:expr),* $(,)?)) => {
        match $name {
            $crate::choosing::ModelName::Knapsack => {
                $call::<$crate::choosing::Knapsack $($(, $other)*)?>($($argument),*)
            }
            $crate::choosing::ModelName::MaxCut => {
                $call::<$crate::choosing::PairModel<$crate::choosing::MaxCut> $($(, $other)*)?>($($argument),*)
            }
            $crate::choosing::ModelName::MaxTwoSat => {
                $call::<$crate::choosing::PairModel<$crate::choosing::MaxTwoSat> $($(, $other)*)?>($($argument),*)
            }
            $crate::choosing::ModelName::TspWindows => {
                $call::<$crate::choosing::TspWindows $($(, $other)*)?>($($argument),*)
            }
            $crate::choosing::ModelName::OneMachine => {
                $call::<$crate::choosing::OneMachine $($(, $other)*)?>($($argument),*)
            }
            $crate::choosing::ModelName::Table => {
                $call::<$crate::choosing::TableModel $($(, $other)*)?>($($argument),*)
            }
            $crate::choosing::ModelName::Qubo => {
                $call::<$crate::choosing::PairModel<$crate::choosing::Qubo> $($(, $other)*)?>($($argument),*)
            }
        }
    };
}
