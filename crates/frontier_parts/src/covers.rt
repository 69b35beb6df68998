//! How covers below prefixes are joined, as a function whose contract states it.

ghost use Rattle.std.specs.Prelude.{◌≡◌, ℕ, ◌<◌, IsTrue, ℤ, List, [], length, Option, None};
ghost use Rattle.dp_model.specs.Dp.{Dp};
ghost use Rattle.dp_model.specs.Laws.{IsLawful};
ghost use Rattle.dp_model.specs.Numbers.{AtMost};
ghost use Rattle.dp_model.specs.Prefixes.{IsPrefix, IsCompletion, value_of};
ghost use Rattle.bound_cover.specs.Covers.{CoverRow};
ghost use Rattle.bound_cover.specs.Tests.{is_at_most};
ghost use Rattle.bound_cover.specs.Verdicts.{checked_rows};
ghost use Rattle.frontier_parts.specs.CoversBelow.{IsCoverBelow, Branch, branching_cover, AreBranches};

/// Above covers of all prefixes that are longer by a decision stands a cover of the prefix. One of the empty prefix passes the
/// checker's tests, and one of any prefix bounds its completions. A cover with a claim is one with each greater claim.
pub fn covers_join()
    ensures branching { (dp : Dp) (claim : Option ℤ) (q : List ℕ) (branches : List Branch) → IsLawful dp → IsPrefix dp q → length q < dp.vars → AreBranches dp claim q branches → IsCoverBelow dp claim q (branching_cover dp claim q branches) 0 }
    ensures raised { (dp : Dp) (claim more : Option ℤ) (p : List ℕ) (layers : List (List CoverRow)) (place : ℕ) → IsTrue (is_at_most claim more) → IsCoverBelow dp claim p layers place → IsCoverBelow dp more p layers place }
    ensures root { (dp : Dp) (claim : Option ℤ) (layers : List (List CoverRow)) (place : ℕ) → IsCoverBelow dp claim [] layers place → checked_rows dp claim layers ≡ None }
    ensures bounds { (dp : Dp) (claim : Option ℤ) (p : List ℕ) (layers : List (List CoverRow)) (place : ℕ) → IsLawful dp → IsPrefix dp p → IsCoverBelow dp claim p layers place → (x : List ℕ) → IsCompletion dp p x → AtMost (value_of dp x) claim }
{}
