// A capability type parted in two.
ghost use Rattle.std.specs.Prelude.{◌≡◌, ◌==◌, ◌≤◌, ◌+◌, ◌∷◌, true, length, MatchOption};
ghost use Rattle.std.specs.List.{list_all};
ghost use Rattle.enc_modes.specs.Equality.{same_alt as same};
ghost use Rattle.enc_modes.specs.Modes as modes;
ghost use Rattle.enc_modes.specs.Order.{Cap as Groups, place_of as place};
ghost use Rattle.enc_modes.specs.Parting as spec;

use crate::equality::{same_alt, same_group};
use crate::order::place_of;
use crate::{Alt, Cap, Group, Mode, mode_of};

/// Whether the whole is linear, and the other two are its groups parted, neither without a group. The
/// order of groups, and of the traits in each, makes no difference.
#[tactic(auto, unfolding(crate::specs::Modes::split_of))]
pub fn split_of(whole: &Cap, left: &Cap, right: &Cap) -> bool
    ensures { result ≡ modes.split_of whole.now left.now right.now }
{
    mode_of(whole) == Mode::Linear
        && !left.as_slice().is_empty()
        && !right.as_slice().is_empty()
        && are_parted(whole.as_slice(), left.as_slice(), right.as_slice())
}

// Whether the groups of the whole are those of both parts. Where all three stand in order, as in texts,
// one walk tells.
fn are_parted(whole: &[Group], left: &[Group], right: &[Group]) -> bool
    ensures { result ≡ spec.parted whole.now left.now right.now }
{
    if are_ordered(whole) && are_ordered(left) && are_ordered(right) {
        interleave(whole, left, right)
    } else {
        balance(whole, left, right)
    }
}

// Whether groups ascend by their places, and the traits of each by their numbers.
fn are_ordered(groups: &[Group]) -> bool
    ensures { result ≡ spec.ordered groups.now }
{
    groups_ascend(groups) && each_ascends(groups)
}

fn groups_ascend(groups: &[Group]) -> bool
    ensures { result ≡ spec.ascends place groups.now }
{
    groups.is_sorted_by(|left, right| place_of(left) < place_of(right))
}

fn each_ascends(groups: &[Group]) -> bool
    ensures { result ≡ list_all (spec.ascends (λ alt. alt.number)) groups.now }
{
    groups.iter().all(|group| alts_ascend(group.as_slice()))
}

fn alts_ascend(alts: &[Alt]) -> bool
    ensures { result ≡ spec.ascends (λ alt. alt.number) alts.now }
{
    alts.is_sorted_by(|left, right| left.number < right.number)
}

// Whether each group of the whole is the next one of a part, until both are used up.
#[tactic(auto, using(crate::proofs::Parting::walk))]
fn interleave(whole: &[Group], left: &[Group], right: &[Group]) -> bool
    requires whole { spec.ordered whole.now ≡ true }
    requires left { spec.ordered left.now ≡ true }
    requires right { spec.ordered right.now ≡ true }
    ensures { result ≡ spec.parted whole.now left.now right.now }
{
    let mut lefts = left;
    let mut rights = right;
    for group in whole {
        if let Some(rest) = behind(group, lefts) {
            lefts = rest;
        } else if let Some(rest) = behind(group, rights) {
            rights = rest;
        } else {
            return false;
        }
    }
    lefts.is_empty() && rights.is_empty()
}

// What stands behind the group, where it is the first.
#[tactic(auto, using(crate::proofs::Parting::first))]
fn behind<'a>(group: &Group, groups: &'a [Group]) -> Option<&'a [Group]>
    ensures { MatchOption result ((rest : Groups) → groups.now ≡ group.now ∷ rest → ⊥) (λ rest. groups.now ≡ group.now ∷ rest.now) }
{
    let (first, rest) = groups.split_first()?;
    if same_group(first.as_slice(), group.as_slice()) {
        Some(rest)
    } else {
        None
    }
}

// Whether each group of the three stands in the whole as often as in both parts together.
fn balance(whole: &[Group], left: &[Group], right: &[Group]) -> bool
    ensures { result ≡ spec.parted whole.now left.now right.now }
{
    all_balanced(whole, whole, left, right)
        && all_balanced(left, whole, left, right)
        && all_balanced(right, whole, left, right)
}

fn all_balanced(groups: &[Group], whole: &[Group], left: &[Group], right: &[Group]) -> bool
    ensures { result ≡ list_all (spec.balanced whole.now left.now right.now) groups.now }
{
    groups.iter().all(|group| times(group, whole) == times(group, left) + times(group, right))
}

// How many of the groups have the same traits as this one.
fn times(group: &Group, groups: &[Group]) -> usize
    ensures value { result ≡ spec.times spec.alike group.now groups.now }
    ensures within { result ≤ length groups.now }
{
    groups
        .iter()
        .filter(|other| are_alike(group.as_slice(), other.as_slice()))
        .count()
}

// Whether each trait stands in both groups equally often.
fn are_alike(left: &[Alt], right: &[Alt]) -> bool
    ensures { result ≡ spec.alike left.now right.now }
{
    all_agree(left, left, right) && all_agree(right, left, right)
}

fn all_agree(alts: &[Alt], left: &[Alt], right: &[Alt]) -> bool
    ensures { result ≡ list_all (λ a. spec.times same a left.now == spec.times same a right.now) alts.now }
{
    alts.iter()
        .all(|alt| alt_times(alt, left) == alt_times(alt, right))
}

fn alt_times(alt: &Alt, alts: &[Alt]) -> usize
    ensures { result ≡ spec.times same alt.now alts.now }
{
    alts.iter().filter(|other| same_alt(alt, other)).count()
}
