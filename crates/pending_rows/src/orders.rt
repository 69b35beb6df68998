//! Lists in which each number below a limit stands once.

ghost use Rattle.std.specs.Prelude.{◌≡◌, nat_eq, nat_lt};
ghost use Rattle.std.specs.List.{list_any, list_all};
ghost use Rattle.pending_rows.specs.Orders as words;

/// Whether a number stands in a list.
fn stands_in(number: u32, list: &[u32]) -> bool
    ensures { result ≡ list_any (λ u. nat_eq u number) list.now }
{
    list.iter().any(|v| *v == number)
}

/// Whether no number stands in the list twice.
pub fn are_different(list: &[u32]) -> bool
    ensures { result ≡ words.are_different list.now }
{
    let mut rest = list;
    'numbers: while let [first, after @ ..] = rest {
        if stands_in(*first, after) {
            return false;
        }
        rest = after;
    }
    true
}

/// Whether each number of the list is below a limit.
pub fn are_below(list: &[u32], limit: usize) -> bool
    ensures { result ≡ list_all (λ v. nat_lt v limit) list.now }
{
    list.iter().all(|v| (*v as usize) < limit)
}

/// Whether each number below a limit stands in the list once.
pub fn is_order(list: &[u32], limit: usize) -> bool
    ensures { result ≡ words.is_order limit list.now }
{
    list.len() == limit && are_below(list, limit) && are_different(list)
}
