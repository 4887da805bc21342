// The order of declaration.
ghost use Rattle.std.specs.Prelude.{◌≡◌, IfOk, map};
ghost use Rattle.enc_modes.specs.Order as spec;

use crate::{Cap, Group};
use enc_ast::Row;
use std::alloc::{AllocError, Global};
use std::mem;

/// The groups, and the traits inside each, in the order of their declarations. What stands in one place
/// stays in the order that it has. Where memory runs out, it answers `AllocError`, and the groups are lost.
pub fn in_order(alloc: Global, groups: Row<Group>) -> Result<Cap, AllocError>
    ensures { IfOk result (λ cap. cap ≡ spec.in_order groups) }
{
    let mut sorted = each_in_order(groups)?.into_vec();
    sorted.sort_by_key(place_of)?;
    Cap::of(alloc, Row::from_vec(sorted))
}

// The groups as they stand, each with its traits in order.
fn each_in_order(groups: Row<Group>) -> Result<Row<Group>, AllocError>
    ensures { IfOk result (λ sorted. sorted ≡ map (spec.sorted (λ alt. alt.number)) groups) }
{
    let mut groups = groups.into_vec();
    let alloc = *groups.allocator();
    for group in groups.iter_mut() {
        let alts = mem::replace(group, Row::new(alloc));
        *group = group_in_order(alts)?;
    }
    Ok(Row::from_vec(groups))
}

fn group_in_order(group: Group) -> Result<Group, AllocError>
    ensures { IfOk result (λ sorted. sorted ≡ spec.sorted (λ alt. alt.number) group) }
{
    let mut alts = group.into_vec();
    alts.sort_by_key(|alt| alt.number)?;
    Ok(Row::from_vec(alts))
}

// The number by which a group in order has its place.
pub(crate) fn place_of(group: &Group) -> u32
    ensures { result ≡ spec.place_of group.now }
{
    match group.as_slice() {
        [first, ..] => first.number,
        [] => 0,
    }
}
