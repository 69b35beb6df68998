ghost use Rattle.std.specs.Prelude.{◌≡◌, nat_lt};
ghost use Rattle.std.specs.List.{list_all};

/// Whether each decision is 0 or 1.
pub fn are_binary(decisions: &[u32]) -> bool
    ensures { result ≡ list_all (λ x. nat_lt x 2) decisions.now }
{
    decisions.iter().all(|decision| *decision < 2)
}
