//! The trait of the values that a turn guards.
ghost use Rattle.std.specs.Prelude.{◌≡◌, ◌≢◌, ℕ, ℤ, List, Option};
ghost use Rattle.turn.specs.Order.{NoLess};

/// A value that changes by moves. Each move is made by the seat with one number.
pub trait Turned: Send {
    /// The type of what no move changes. Only proofs use it: no value of it is made.
    type Tag;

    /// What no move changes.
    ghost tag: { Self → Self.Tag };

    /// A number that no move lowers. `None` is less than every number.
    ghost seen: { Self → Option ℤ };

    /// The decisions that a number has out, or `None`.
    ghost out: { Self → ℕ → Option (List ℕ) };

    /// Whether the number may move from the first value to the second.
    ghost moves: { Self → Self → ℕ → Type 0 };

    /// A move keeps the tag, does not lower the seen number, and does not change the decisions of other numbers.
    ghost keeps: { (before after : Self) (number : ℕ) → moves before after number
        → (tag after ≡ tag before) × NoLess (seen before) (seen after) × ((other : ℕ) → other ≢ number → out after other ≡ out before other) };
}
