// Capability types put together, parted and chosen from.
ghost use Rattle.std.specs.Prelude.{◌≡◌, ◌++◌, ℕ, nat_eq, map, IfOk, OnOk};
ghost use Rattle.std.specs.List.{list_any};
ghost use Rattle.indexmap.specs.IndexSet.{contains_by};
ghost use Rattle.enc_modes.specs.Modes as spec;

use crate::order::in_order;
use crate::{Alt, Cap, Group, Mode, mode_of};
use enc_ast::Row;
use indexmap::IndexSet;
use std::alloc::{AllocError, Global};

/// Whether the groups go together: no trait stands in them twice, and of several groups each is a linear
/// trait or a disjunction. It takes memory, and answers `AllocError` where that runs out.
#[tactic(auto, unfolding(crate::specs::Modes::composes))]
pub(crate) fn go_together(alloc: Global, groups: &[Group]) -> Result<bool, AllocError>
    ensures { IfOk result (λ yes. yes ≡ spec.composes groups.now) }
{
    let numbers = traits_of(alloc, groups)?;
    Ok(are_distinct(alloc, &numbers)? && joins(groups))
}

/// The groups of both in order, or `None` where they aren't both linear or share a trait. Where memory runs
/// out, it answers `AllocError`.
#[tactic(auto, unfolding(crate::specs::Modes::pack_of))]
pub fn pack_of(alloc: Global, left: &Cap, right: &Cap) -> Result<Option<Cap>, AllocError>
    ensures { IfOk result (λ packed. packed ≡ spec.pack_of left.now right.now) }
{
    if mode_of(left) != Mode::Linear || mode_of(right) != Mode::Linear {
        return Ok(None);
    }
    if overlap(alloc, left.as_slice(), right.as_slice())? {
        return Ok(None);
    }
    let mut both = copy_groups(alloc, left)?;
    both.append(copy_groups(alloc, right)?)?;
    Ok(Some(in_order(alloc, both)?))
}

fn copy_groups(alloc: Global, cap: &Cap) -> Result<Row<Group>, AllocError>
    ensures { IfOk result (λ copied. copied ≡ cap.now) }
{
    let mut copied = Row::new(alloc);
    for group in cap.as_slice() {
        copied.push(copy_group(alloc, group)?)?;
    }
    Ok(copied)
}

fn copy_group(alloc: Global, group: &Group) -> Result<Group, AllocError>
    ensures { IfOk result (λ copied. copied ≡ group.now) }
{
    let mut copied = Row::new(alloc);
    copied.extend(group.as_slice())?;
    Ok(copied)
}

/// The trait with the number, of a type that is one disjunction. It is `None` where the type is
/// anything else, or the disjunction hasn't the trait.
#[tactic(auto, unfolding(crate::specs::Modes::choose_of))]
pub fn choose_of(cap: &Cap, number: u32) -> Option<Alt>
    ensures { result ≡ spec.choose_of cap.now number }
{
    match cap.as_slice() {
        [group] if group.len() > 1 => alt_in(group.as_slice(), number),
        _ => None,
    }
}

fn alt_in(group: &[Alt], number: u32) -> Option<Alt>
    ensures { result ≡ spec.alt_in group.now number }
{
    for alt in group {
        if alt.number == number {
            return Some(*alt);
        }
    }
    None
}

fn joins(groups: &[Group]) -> bool
    ensures { result ≡ spec.joins groups.now }
{
    groups.len() < 2 || all_join(groups)
}

fn all_join(groups: &[Group]) -> bool
    ensures { result ≡ spec.all_join groups.now }
{
    groups.iter().all(can_join)
}

// Whether it may stand beside other groups.
fn can_join(group: &Group) -> bool
    ensures { result ≡ spec.can_join group.now }
{
    match group.as_slice() {
        [alt] => alt.mode == Mode::Linear,
        _ => true,
    }
}

// The traits of all groups, by their numbers.
fn traits_of(alloc: Global, groups: &[Group]) -> Result<Vec<u32>, AllocError>
    ensures { IfOk result (λ numbers. numbers.items ≡ spec.traits_of groups.now) }
{
    let mut numbers = Vec::new(alloc);
    for group in groups {
        add_numbers(&mut numbers, group.as_slice())?;
    }
    Ok(numbers)
}

fn add_numbers(numbers: &mut Vec<u32>, group: &[Alt]) -> Result<(), AllocError>
    ensures { OnOk result (numbers.new.items ≡ numbers.old.items ++ map (λ alt. alt.number) group.now) }
{
    for alt in group {
        numbers.push(alt.number)?;
    }
    Ok(())
}

#[tactic(auto, using(crate::proofs::Distinct::freshness))]
fn are_distinct(alloc: Global, numbers: &[u32]) -> Result<bool, AllocError>
    ensures { IfOk result (λ yes. yes ≡ spec.distinct numbers.now) }
{
    let mut seen = IndexSet::new(alloc);
    for number in numbers {
        let new = seen.insert(*number)?;
        if !new {
            return Ok(false);
        }
    }
    Ok(true)
}

// Whether some trait stands in both.
#[tactic(auto, using(crate::proofs::Distinct::overlap_among))]
fn overlap(alloc: Global, left: &[Group], right: &[Group]) -> Result<bool, AllocError>
    ensures { IfOk result (λ yes. yes ≡ spec.overlap (spec.traits_of left.now) (spec.traits_of right.now)) }
{
    let seen = set_of(alloc, &traits_of(alloc, right)?)?;
    Ok(meets(&traits_of(alloc, left)?, &seen))
}

#[tactic(auto, using(crate::proofs::Distinct::keyed))]
fn set_of(alloc: Global, numbers: &[u32]) -> Result<IndexSet<u32>, AllocError>
    ensures { IfOk result (λ set. (n : ℕ) → contains_by (nat_eq n) set ≡ spec.contains numbers.now n) }
{
    let mut set = IndexSet::new(alloc);
    for number in numbers {
        set.insert(*number)?;
    }
    Ok(set)
}

// Whether some number is in the set.
fn meets(numbers: &[u32], set: &IndexSet<u32>) -> bool
    ensures { result ≡ list_any (λ number. contains_by (nat_eq number) set.now) numbers.now }
{
    numbers.iter().any(|number| set.contains(number))
}
