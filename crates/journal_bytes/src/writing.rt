ghost use Rattle.std.specs.Prelude.{◌≡◌, ◌≤◌, ◌<◌, ◌+◌, ◌^◌, ◌++◌, ℕ, length, map, option_map, All, FitsSigned, IfOk, IfSome, IsTrue, OnOk, List, Some, Ok};
ghost use Rattle.std.specs.List.{flat_map, AllByRecursion};
ghost use Rattle.std.specs.Int.{w32, w64, to_be_bytes, cast_unsigned};
ghost use Rattle.journal_bytes.specs.Bodies.{Improve, Finish, Snapshot, record_of};
ghost use Rattle.journal_bytes.specs.Journal.{head_of, is_distance, new_head};
ghost use Rattle.journal_bytes.specs.Spelling.{head_bytes, mark_bytes, mark_size, version_for, PartFits, numbers, decision_bytes, bounded_bytes, child_bytes, listed_bytes, best_bytes, record_bytes, number_of_ticket, record_kind, record_size, HasSpelling, IsOfVersion, IsTicket, ChildFits, ListedFits, IncumbentFits, RecordFits};
ghost use Rattle.journal_bytes.specs.Views.{child_view, incumbent_view, listed_view, record_view};

use crate::head::{PART_VERSION, VERSION};
use crate::{Child, Head, Incumbent, Listed, Part, Record};
use std::alloc::{AllocError, Global};

/// The version of a new journal with this part, or of a whole search.
fn version_for(part: Option<Part>) -> u32
    ensures { result ≡ version_for part }
{
    match part {
        Some(_) => PART_VERSION,
        None => VERSION,
    }
}

#[tactic(auto, unfolding(crate::specs::Spelling::mark_bytes))]
fn push_mark(body: &mut Vec<u8>, mark: Option<Part>) -> Result<(), AllocError>
    requires { IfSome mark (λ p. p.index < p.of) }
    ensures bytes { OnOk result (body.new.items ≡ body.old.items ++ mark_bytes mark) }
    ensures fits { OnOk result (IfSome mark PartFits) }
{
    if let Some(part) = mark {
        body.extend_from_slice(&part.index.to_be_bytes())?;
        body.extend_from_slice(&part.of.to_be_bytes())?;
        body.extend_from_slice(&part.digest)?;
    }
    Ok(())
}

/// The body of a head: with the mark of a part where it has one, and else in version 2. The text has fewer than `2^32` bytes, the distance is from 0 to
/// `MOST_WITHIN`, and the number of a part is less than that of the parts.
///
/// # Errors
///
/// `AllocError`.
#[tactic(auto, unfolding(crate::specs::Spelling::head_bytes))]
pub fn head_body(alloc: Global, head: &Head) -> Result<Vec<u8>, AllocError>
    requires text { length head.now.text.items < 2 ^ 32 }
    requires within { IsTrue (is_distance head.now.within) }
    requires part { IfSome head.now.part (λ p. p.index < p.of) }
    ensures bytes { IfOk result (λ v. v.items ≡ head_bytes (new_head head.now)) }

    // It reads back as the head.
    ensures reads { IfOk result (λ v. head_of (record { kind = 1; body = v.items }) ≡ Ok (new_head head.now)) }
    ensures fits { OnOk result (IfSome head.now.part PartFits) }
    ensures size { IfOk result (λ v. length v.items ≡ 17 + mark_size head.now.part + length head.now.text.items) }
{
    let mut body = Vec::new(alloc);
    body.extend_from_slice(&version_for(head.part).to_be_bytes())?;
    body.push(head.model.byte())?;
    body.extend_from_slice(&head.within.to_be_bytes())?;
    push_mark(&mut body, head.part)?;
    body.extend_from_slice(&(head.text.len() as u32).to_be_bytes())?;
    body.extend_from_slice(&head.text)?;
    Ok(body)
}

fn push_numbers(body: &mut Vec<u8>, items: &[u32]) -> Result<(), AllocError>
    ensures { OnOk result (body.new.items ≡ body.old.items ++ numbers items.now) }
{
    for n in items {
        body.extend_from_slice(&n.to_be_bytes())?;
    }
    Ok(())
}

#[tactic(auto, unfolding(crate::specs::Spelling::decision_bytes))]
fn push_decisions(body: &mut Vec<u8>, decisions: &[u32]) -> Result<(), AllocError>
    requires { length decisions.now < 2 ^ 32 }
    ensures bytes { OnOk result (body.new.items ≡ body.old.items ++ decision_bytes decisions.now) }
    ensures fits { OnOk result (AllByRecursion (λ d. d < 2 ^ 32) decisions.now) }
{
    body.extend_from_slice(&(decisions.len() as u32).to_be_bytes())?;
    push_numbers(body, decisions)
}

/// The number that stands for a replaced ticket, or for none.
fn ticket_number(replaced: Option<u64>) -> u64
    ensures { result ≡ number_of_ticket replaced }
{
    match replaced {
        Some(ticket) => ticket,
        None => u64::MAX,
    }
}

/// A number, a bound and decisions.
fn push_bounded(
    body: &mut Vec<u8>,
    number: u64,
    bound: i64,
    decisions: &[u32],
) -> Result<(), AllocError>
    requires { length decisions.now < 2 ^ 32 }
    ensures bytes { OnOk result (body.new.items ≡ body.old.items ++ bounded_bytes number bound decisions.now) }
    ensures fits { OnOk result ((number < 2 ^ 64) × FitsSigned w64 bound × AllByRecursion (λ d. d < 2 ^ 32) decisions.now) }
{
    body.extend_from_slice(&number.to_be_bytes())?;
    body.extend_from_slice(&bound.to_be_bytes())?;
    push_decisions(body, decisions)?;
    Ok(())
}

fn push_child(body: &mut Vec<u8>, child: &Child) -> Result<(), AllocError>
    requires count { length child.now.decisions.items < 2 ^ 32 }
    requires ticket { IsTicket child.now.replaced }
    ensures bytes { OnOk result (body.new.items ≡ body.old.items ++ child_bytes (child_view child.now)) }
    ensures fits { OnOk result (ChildFits (child_view child.now)) }
{
    let number = ticket_number(child.replaced);
    push_bounded(body, number, child.bound, &child.decisions)?;
    Ok(())
}

fn push_listed(body: &mut Vec<u8>, listed: &Listed) -> Result<(), AllocError>
    requires { length listed.now.decisions.items < 2 ^ 32 }
    ensures bytes { OnOk result (body.new.items ≡ body.old.items ++ listed_bytes (listed_view listed.now)) }
    ensures fits { OnOk result (ListedFits (listed_view listed.now)) }
{
    push_bounded(body, listed.ticket, listed.bound, &listed.decisions)?;
    Ok(())
}

fn push_all_listed(body: &mut Vec<u8>, listed: &[Listed]) -> Result<(), AllocError>
    requires { All (λ o. length o.decisions.items < 2 ^ 32) listed.now }
    ensures bytes { OnOk result (body.new.items ≡
        body.old.items ++ flat_map listed_bytes (map listed_view listed.now)) }
    ensures fits { OnOk result (All (λ o. ListedFits (listed_view o)) listed.now) }
{
    for one in listed {
        push_listed(body, one)?;
    }
    Ok(())
}

fn push_incumbent(body: &mut Vec<u8>, incumbent: &Incumbent) -> Result<(), AllocError>
    requires { length incumbent.now.decisions.items < 2 ^ 32 }
    ensures bytes { OnOk result (body.new.items ≡ body.old.items ++ best_bytes (Some (incumbent_view incumbent.now))) }
    ensures fits { OnOk result (IncumbentFits (incumbent_view incumbent.now)) }
{
    body.push(1)?;
    body.extend_from_slice(&incumbent.value.to_be_bytes())?;
    push_decisions(body, &incumbent.decisions)?;
    Ok(())
}

#[tactic(auto, unfolding(crate::specs::Spelling::best_bytes))]
fn push_best(body: &mut Vec<u8>, best: &Option<Incumbent>) -> Result<(), AllocError>
    requires { IfSome best.now (λ b. length b.decisions.items < 2 ^ 32) }
    ensures bytes { OnOk result (body.new.items ≡ body.old.items ++ best_bytes (option_map incumbent_view best.now)) }
    ensures fits { OnOk result (IfSome (option_map incumbent_view best.now) IncumbentFits) }
{
    match best {
        Some(incumbent) => push_incumbent(body, incumbent),
        None => {
            body.push(0)?;
            Ok(())
        }
    }
}

fn push_children(body: &mut Vec<u8>, children: &[Child]) -> Result<(), AllocError>
    requires counts { All (λ c. length c.decisions.items < 2 ^ 32) children.now }
    requires tickets { All (λ c. IsTicket c.replaced) children.now }
    ensures bytes { OnOk result (body.new.items ≡
        body.old.items ++ flat_map child_bytes (map child_view children.now)) }
    ensures fits { OnOk result (All (λ c. ChildFits (child_view c)) children.now) }
{
    for one in children {
        push_child(body, one)?;
    }
    Ok(())
}

#[tactic(auto, unfolding(crate::specs::Spelling::record_bytes))]
fn improve_body(alloc: Global, value: i64, decisions: &[u32]) -> Result<Vec<u8>, AllocError>
    requires { length decisions.now < 2 ^ 32 }
    ensures bytes { IfOk result (λ v. v.items ≡ record_bytes (Improve value decisions.now)) }
    ensures fits { OnOk result (RecordFits (Improve value decisions.now)) }
{
    let mut body = Vec::new(alloc);
    body.extend_from_slice(&value.to_be_bytes())?;
    push_decisions(&mut body, decisions)?;
    Ok(body)
}

#[tactic(auto, unfolding(crate::specs::Spelling::record_bytes))]
fn finish_body(alloc: Global, ticket: u64, children: &[Child]) -> Result<Vec<u8>, AllocError>
    requires { HasSpelling (Finish ticket (map child_view children.now)) }
    ensures bytes { IfOk result (λ v. v.items ≡ record_bytes (Finish ticket (map child_view children.now))) }
    ensures fits { OnOk result (RecordFits (Finish ticket (map child_view children.now))) }
{
    let mut body = Vec::new(alloc);
    body.extend_from_slice(&ticket.to_be_bytes())?;
    body.extend_from_slice(&(children.len() as u32).to_be_bytes())?;
    push_children(&mut body, children)?;
    Ok(body)
}

#[tactic(auto, unfolding(crate::specs::Spelling::record_bytes))]
fn snapshot_body(
    alloc: Global,
    best: &Option<Incumbent>,
    next: u64,
    listed: &[Listed],
) -> Result<Vec<u8>, AllocError>
    requires { HasSpelling (Snapshot (option_map incumbent_view best.now) next (map listed_view listed.now)) }
    ensures bytes { IfOk result (λ v. v.items ≡ record_bytes (Snapshot (option_map incumbent_view best.now) next (map listed_view listed.now))) }
    ensures fits { OnOk result (RecordFits (Snapshot (option_map incumbent_view best.now) next (map listed_view listed.now))) }
{
    let mut body = Vec::new(alloc);
    push_best(&mut body, best)?;
    body.extend_from_slice(&next.to_be_bytes())?;
    body.extend_from_slice(&(listed.len() as u32).to_be_bytes())?;
    push_all_listed(&mut body, listed)?;
    Ok(body)
}

/// The body of a record. A body has fewer than `2^32` bytes, and `u64::MAX` is no ticket.
///
/// # Errors
///
/// `AllocError`.
pub fn record_body(alloc: Global, entry: &Record) -> Result<Vec<u8>, AllocError>
    requires { HasSpelling (record_view entry.now) }
    ensures bytes { IfOk result (λ v. v.items ≡ record_bytes (record_view entry.now)) }

    // It reads back as the record, in each version that may have it.
    ensures reads { IfOk result (λ v. (version : ℕ) → IsOfVersion version (record_view entry.now) →
        record_of version (record { kind = record_kind (record_view entry.now); body = v.items }) ≡ Some (record_view entry.now)) }
    ensures size { IfOk result (λ v. length v.items ≡ record_size (record_view entry.now)) }
{
    match entry {
        Record::Improve { value, decisions } => improve_body(alloc, *value, decisions),
        Record::Finish { ticket, children } => finish_body(alloc, *ticket, children),
        Record::Snapshot {
            incumbent,
            next_ticket,
            listed,
        } => snapshot_body(alloc, incumbent, *next_ticket, listed),
    }
}
