//! What settled start prefixes tell of the best value, as functions whose contracts state it.

ghost use Rattle.std.specs.Prelude.{◌≡◌, ℕ, ℤ, List, [], ◌∷◌, Option, None};
ghost use Rattle.dp_model.specs.Dp.{Dp};
ghost use Rattle.dp_model.specs.Best.{best};
ghost use Rattle.dp_model.specs.Cover.{Covers};
ghost use Rattle.dp_model.specs.Laws.{IsLawful};
ghost use Rattle.dp_model.specs.Lists.{Each};
ghost use Rattle.dp_model.specs.Numbers.{AtMost, OptionAtMost};
ghost use Rattle.dp_model.specs.Prefixes.{IsPrefix, IsSolution, value_of};
ghost use Rattle.dp_model.proofs.Members.{Has};
ghost use Rattle.board_laws.specs.Board.{reach_of};
ghost use Rattle.board_laws.specs.Starts.{CoversFrom};
ghost use Rattle.bound_cover.specs.Covers.{CoverRow};
ghost use Rattle.frontier_parts.specs.CoversBelow.{IsCoverBelow};
ghost use Rattle.frontier_parts.specs.Settled.{Settled, IsShown, IsSettled, IsSettledWithin, DealsOut, joined, prefixes, values};

/// The greatest of an incumbent and of the values of settled prefixes is the best value, where incumbent and prefixes cover all solutions.
/// Where they are settled within a distance, no solution is further above the joined value.
/// Prefixes with which each greater solution begins cover them. What is settled stays settled beside a greater incumbent, and a cover
/// whose claim is the incumbent settles its prefix.
pub fn parts_join()
    ensures best { (dp : Dp) (inc : Option ℤ) (parts : List Settled) → IsShown dp inc → Covers dp inc (prefixes parts) → Each (IsSettled dp inc) parts → joined inc (values parts) ≡ best dp }
    ensures within { (dp : Dp) (within : ℤ) (inc : Option ℤ) (parts : List Settled) → Covers dp (reach_of within inc) (prefixes parts) → Each (IsSettledWithin dp within inc) parts → (x : List ℕ) → IsSolution dp x → AtMost (value_of dp x) (reach_of within (joined inc (values parts))) }
    ensures begun { (dp : Dp) (inc : Option ℤ) (P : List (List ℕ)) → DealsOut dp inc P → Covers dp inc P }
    ensures later { (dp : Dp) (inc later : Option ℤ) (part : Settled) → OptionAtMost inc later → IsSettled dp inc part → IsSettled dp later part }
    ensures covered { (dp : Dp) (inc : Option ℤ) (p : List ℕ) (layers : List (List CoverRow)) (place : ℕ) → IsLawful dp → IsPrefix dp p → IsCoverBelow dp inc p layers place → IsSettled dp inc (record { prefix = p; best = None }) }
{}

/// A search from start prefixes settles each of them with its last incumbent, once nothing is open. From the empty prefix it is a whole search.
pub fn runs_settle()
    ensures settled { (dp : Dp) (starts : List (List ℕ)) (found before : Option ℤ) → IsShown dp found → CoversFrom dp starts found [] → (p : List ℕ) → Has p starts → IsSettled dp before (record { prefix = p; best = found }) }
    ensures whole { (dp : Dp) (inc : Option ℤ) (P : List (List ℕ)) → CoversFrom dp ([] ∷ []) inc P → Covers dp inc P }
{}
