// Classes of passive objects.
ghost use Rattle.std.specs.Prelude.{◌≡◌, true, IfOk, OnOk};
ghost use Rattle.std.specs.Option.{option_copied};
ghost use Rattle.enc_premises.specs.Premises.{each, if_known};
ghost use Rattle.enc_premises.specs.Passing.{Passes};
ghost use Rattle.enc_types.specs.Names.{groups_of};
ghost use Rattle.enc_decls.specs.Found.{Right};
ghost use Rattle.enc_decls.specs.Rules as rules;
ghost use Rattle.enc_decls.specs.Nodes as spec;

use crate::groups::may_share;
use crate::traits::Traits;
use enc_ast::{ClassDecl, Decl, Fail, GroupText, Rule};
use enc_modes::{Cap, Mode, mode_of};
use enc_premises::demand;
use enc_types::{Meaning, Names};
use std::alloc::{AllocError, Global};

/// Refuses a class by the first of its groups that breaks a rule, then by its name unless that is
/// new, and then by what the groups make together. Where memory runs out, it answers `Fail::Memory`.
#[tactic(auto, using(crate::proofs::Passing::passing))]
pub fn judge_class(
    alloc: Global,
    decls: &[Decl],
    names: &Names,
    traits: &mut Traits,
    new: bool,
    class: &ClassDecl,
) -> Result<(), Fail>
    requires right { Right decls.now names.now traits.old }
    requires own { new ≡ true → spec.groups_named names.now class.now.name.word ≡ groups_of decls.now class.now }
    ensures passes { Passes result (spec.class_node decls.now names.now new class.now) }
    ensures right { OnOk result (Right decls.now names.now traits.new) }
{
    each_group(alloc, decls, names, traits, class.groups.as_slice())?;
    demand(Rule::KName, class.span, new)?;
    let groups = groups_named(names, class.name.word.as_str());
    demand(Rule::KClass, class.span, is_class(groups))
}

#[tactic(auto, using(crate::proofs::Loops::rests))]
fn each_group(
    alloc: Global,
    decls: &[Decl],
    names: &Names,
    traits: &mut Traits,
    groups: &[GroupText],
) -> Result<(), Fail>
    requires { Right decls.now names.now traits.old }
    ensures passes { Passes result (each (rules.group_premises decls.now names.now) groups.now) }
    ensures right { OnOk result (Right decls.now names.now traits.new) }
{
    for group in groups {
        judge_group(alloc, decls, names, traits, group)?;
    }
    Ok(())
}

#[tactic(auto, using(crate::proofs::Passing::passing))]
fn judge_group(
    alloc: Global,
    decls: &[Decl],
    names: &Names,
    traits: &mut Traits,
    group: &GroupText,
) -> Result<(), Fail>
    requires { Right decls.now names.now traits.old }
    ensures passes { Passes result (rules.group_premises decls.now names.now group.now) }
    ensures right { OnOk result (Right decls.now names.now traits.new) }
{
    demand(Rule::KName, group.span, names.are_traits(group))?;
    let shares = may_share(alloc, decls, names, traits, group)?;
    demand(Rule::KOr, group.span, shares)
}

// The groups of the class that the name stands for, as far as they are known.
#[tactic(auto, unfolding(enc_types::specs::Names::found))]
fn groups_named<'a>(names: &'a Names, name: &str) -> Option<&'a Cap>
    ensures { option_copied result ≡ spec.groups_named names.now name.now }
{
    match &names.get(names.find(name)?)?.is {
        Meaning::Class(Some(groups)) => Some(groups),
        _ => None,
    }
}

#[tactic(auto, unfolding(crate::specs::Rules::is_class))]
fn is_class(groups: Option<&Cap>) -> bool
    ensures { result ≡ if_known rules.is_class (option_copied groups.entry) }
{
    let Some(groups) = groups else {
        return true;
    };
    groups.composes() && mode_of(groups) != Mode::Read
}
