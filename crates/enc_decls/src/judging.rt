// The declarations of a program.
ghost use Rattle.std.specs.Prelude.{◌≡◌, [], OnOk};
ghost use Rattle.enc_premises.specs.Premises.{each_after};
ghost use Rattle.enc_premises.specs.Passing.{Passes};
ghost use Rattle.enc_types.specs.Names as meaning;
ghost use Rattle.enc_decls.specs.Found.{Right};
ghost use Rattle.enc_decls.specs.Rules.{table_premises, decl_premises};
ghost use Rattle.enc_decls.specs.Nodes as spec;

use crate::classes::judge_class;
use crate::main_class::has_main;
use crate::members::{Owner, members};
use crate::routines::{is_function, routine_types};
use crate::traits::Traits;
use enc_ast::{ActiveDecl, Decl, Fail, Method, ModeWord, Program, Rule, TraitDecl, Word};
use enc_modes::Mode;
use enc_premises::demand;
use enc_types::{Names, Places};
use std::alloc::Global;

/// Refuses a program by the first rule that its declarations break, in the order of the text: each
/// declaration behind its parts, and at the end the program as a whole. It answers `Memory` where
/// memory runs out.
#[tactic(auto, using(crate::proofs::Passing::passing), unfolding(crate::specs::Rules::table_premises))]
pub fn judge(alloc: Global, program: &Program, names: &Names) -> Result<(), Fail>
    requires { names.now ≡ meaning.names_of program.now.decls }
    ensures { Passes result (table_premises program.now) }
{
    let decls = program.decls.as_slice();
    let mut traits = Traits::new(alloc);
    each_decl(alloc, decls, names, &mut traits)?;
    let has_main = has_main(alloc, decls, names)?;
    demand(Rule::KMain, program.span, has_main)
}

#[tactic(auto, using(crate::proofs::Loops::afters))]
fn each_decl(alloc: Global, decls: &[Decl], names: &Names, traits: &mut Traits) -> Result<(), Fail>
    requires names { names.now ≡ meaning.names_of decls.now }
    requires right { Right decls.now names.now traits.old }
    ensures { Passes result (each_after (decl_premises decls.now names.now) [] decls.now) }
{
    let mut seen = Places::new(alloc);
    for decl in decls {
        let word = word_of(decl);
        let new = !seen.has(word.as_str());
        judge_decl(alloc, decls, names, traits, new, decl)?;
        seen.add(word)?;
    }
    Ok(())
}

fn word_of(decl: &Decl) -> &Word
    ensures { result.now ≡ meaning.word_of decl.now }
{
    match decl {
        Decl::Trait(decl) => &decl.name.word,
        Decl::Class(decl) => &decl.name.word,
        Decl::Active(decl) => &decl.name.word,
        Decl::Fun(decl) => &decl.name.word,
    }
}

fn judge_decl(
    alloc: Global,
    decls: &[Decl],
    names: &Names,
    traits: &mut Traits,
    new: bool,
    decl: &Decl,
) -> Result<(), Fail>
    requires right { Right decls.now names.now traits.old }
    requires itself { spec.StandsForItself decls.now names.now new decl.now }
    ensures passes { Passes result (spec.decl_node decls.now names.now new decl.now) }
    ensures right { OnOk result (Right decls.now names.now traits.new) }
{
    match decl {
        Decl::Trait(decl) => judge_trait(alloc, names, new, decl),
        Decl::Class(decl) => judge_class(alloc, decls, names, traits, new, decl),
        Decl::Active(decl) => judge_active(alloc, names, new, decl),
        Decl::Fun(decl) => judge_function(alloc, names, new, decl),
    }
}

#[tactic(auto, using(crate::proofs::Passing::passing))]
fn judge_trait(alloc: Global, names: &Names, new: bool, decl: &TraitDecl) -> Result<(), Fail>
    ensures { Passes result (spec.trait_node names.now new decl.now) }
{
    let owner = Owner::Trait(mode_by(decl.mode));
    members(
        alloc,
        names,
        owner,
        decl.fields.as_slice(),
        decl.methods.as_slice(),
    )?;
    demand(Rule::KName, decl.span, new)
}

fn mode_by(word: ModeWord) -> Mode
    ensures { result ≡ meaning.mode_by word }
{
    match word {
        ModeWord::Linear => Mode::Linear,
        ModeWord::Local => Mode::Local,
        ModeWord::Read => Mode::Read,
        ModeWord::Subordinate => Mode::Subordinate,
    }
}

#[tactic(auto, using(crate::proofs::Passing::passing))]
fn judge_active(alloc: Global, names: &Names, new: bool, decl: &ActiveDecl) -> Result<(), Fail>
    ensures { Passes result (spec.active_node names.now new decl.now) }
{
    members(
        alloc,
        names,
        Owner::Active,
        decl.fields.as_slice(),
        decl.methods.as_slice(),
    )?;
    demand(Rule::KName, decl.span, new)
}

#[tactic(auto, using(crate::proofs::Passing::passing))]
fn judge_function(alloc: Global, names: &Names, new: bool, decl: &Method) -> Result<(), Fail>
    ensures { Passes result (spec.function_node names.now new decl.now) }
{
    routine_types(names, decl)?;
    demand(Rule::KName, decl.span, new)?;
    let is_function = is_function(alloc, names, decl)?;
    demand(Rule::KSig, decl.span, is_function)
}
