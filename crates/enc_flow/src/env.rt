// The visible variables, each of which has a type.
ghost use Rattle.std.specs.Prelude.{◌≡◌, ◌<◌, ◌≤◌, ◌↔◌, IsTrue, [], length, take, not, IfOk, IfSome, OnOk, OnErr, false, Some, slice_get};
ghost use Rattle.enc_flow.specs.Env as spec;
ghost use Rattle.enc_flow.specs.Known.{Knows};

use crate::scope::Scope;
use enc_ast::Word;
use enc_modes::Ty;
use std::alloc::{AllocError, Global};
use std::marker::Model;

/// The visible variables, each with its type, in the order in which they were declared. A variable goes
/// by its place in that order, from 0 on. There are at most 1,024.
#[derive(Drop)]
pub struct Env {
    scope: Scope,
}

impl Model for Env {
    ghost use Rattle.std.specs.Prelude.{List};
    ghost use Rattle.std.specs.Coded.{codes};
    ghost use Rattle.enc_modes.specs.contracts.ty.Ty as ty;
    ghost use Rattle.enc_flow.specs.Vars.{Var};
    ghost use Rattle.enc_flow.specs.Known.{Knows};

    ghost Value = { List Var };

    ghost coded = { Prim.hlevel (codes, ty.the_row.coded) };

    ghost view = { λ env. env.scope };

    ghost invariant = { λ env. Knows env.scope };
}

impl Env {
    /// No variable. It takes no memory yet.
    #[tactic(auto, using(crate::proofs::Knowing::knowing))]
    pub fn new(alloc: Global) -> Env
        ensures { result ≡ [] }
    {
        Env {
            scope: Scope::new(alloc),
        }
    }

    /// The same variables, as they are judged.
    pub fn scope(&self) -> &Scope
        ensures value { result.now ≡ self.now }
        ensures known { Knows self.now }
    {
        &self.scope
    }

    /// How many variables are visible.
    pub fn len(&self) -> usize
        ensures value { result ≡ length self.now }
        ensures few { result ≤ 1024 }
    {
        self.scope.len()
    }

    /// Whether no variable is visible.
    pub fn is_empty(&self) -> bool
        ensures { IsTrue result ↔ (self.now ≡ []) }
    {
        self.scope.is_empty()
    }

    /// Adds a variable, which isn't moved, and answers its number. Where memory runs out the word and the
    /// type are lost, and the variables stay as they were.
    #[tactic(auto, using(crate::proofs::Knowing::knowing))]
    pub fn declare(&mut self, word: Word, ty: Ty) -> Result<u32, AllocError>
        requires { length self.old < 1024 }
        ensures ok { OnOk result (self.new ≡ spec.declares self.old word (Some ty)) }
        ensures number { IfOk result (λ number. number ≡ length self.old) }
        ensures err { OnErr result (self.new ≡ self.old) }
    {
        self.scope.declare(word, ty)
    }

    /// The number of the variable of this name, or `None` where there is none. Of several it is the one
    /// that was declared last.
    pub fn find(&self, name: &str) -> Option<u32>
        ensures value { result ≡ spec.number_of self.now name.now }
        ensures within { IfSome result (λ number. number < length self.now) }
    {
        self.scope.find(name)
    }

    /// The type of a variable.
    #[tactic(auto, using(crate::proofs::Knowing::knowing))]
    pub fn ty(&self, variable: u32) -> &Ty
        requires { variable < length self.now }
        ensures { Some result.now ≡ spec.ty_of (slice_get self.now variable) }
    {
        self.scope.known(variable).unwrap()
    }

    /// Whether a variable was moved.
    pub fn is_moved(&self, variable: u32) -> bool
        requires { variable < length self.now }
        ensures { result ≡ spec.moved_of (slice_get self.now variable) }
    {
        self.scope.is_moved(variable)
    }

    /// Uses a variable up: where its type is linear, it is moved from now on. Answers false where it was
    /// moved before. It takes no memory.
    #[tactic(auto, using(crate::proofs::Knowing::knowing))]
    pub fn take(&mut self, variable: u32) -> bool
        requires { variable < length self.old }
        ensures value { self.new ≡ spec.takes self.old variable }
        ensures free { result ≡ not (spec.moved_of (slice_get self.old variable)) }
    {
        self.scope.take(variable)
    }

    /// Makes a variable usable again, as when a value is put into it. It takes no memory.
    #[tactic(auto, using(crate::proofs::Knowing::knowing))]
    pub fn give(&mut self, variable: u32)
        requires { variable < length self.old }
        ensures { self.new ≡ spec.marked_at self.old variable false }
    {
        self.scope.give(variable);
    }

    /// Keeps the first variables, `count` of them or all where there are fewer, and drops the others.
    #[tactic(auto, using(crate::proofs::Knowing::knowing))]
    pub fn cut(&mut self, count: u32)
        ensures { self.new ≡ take count self.old }
    {
        self.scope.cut(count);
    }

    /// An environment of its own with the same variables, moved or not, or `AllocError` where memory runs out.
    /// Words and types are shared and not copied.
    #[tactic(auto, using(crate::proofs::Knowing::knowing))]
    pub fn copy(&self) -> Result<Env, AllocError>
        ensures { IfOk result (λ copied. copied ≡ self.now) }
    {
        Ok(Env {
            scope: self.scope.copy()?,
        })
    }

    /// Each variable that is moved in the other environment is moved in this one too. It takes no memory.
    #[tactic(auto, using(crate::proofs::Knowing::knowing))]
    pub fn merge(&mut self, other: &Env)
        ensures { self.new ≡ spec.merged self.old other.now }
    {
        self.scope.merge(&other.scope);
    }

    /// Whether both have as many variables and the same of them are moved. It takes no memory.
    pub fn same_moves(&self, other: &Env) -> bool
        ensures { result ≡ spec.same_moves self.now other.now }
    {
        self.scope.same_moves(&other.scope)
    }
}
