// The visible variables, some of which may have no known type.
ghost use Rattle.std.specs.Prelude.{◌≡◌, ◌<◌, ◌≤◌, ◌↔◌, IsTrue, [], length, take, not, IfOk, IfSome, OnOk, OnErr, true, false, Some, None, slice_get};
ghost use Rattle.std.specs.Option.{option_copied};
ghost use Rattle.enc_flow.specs.Env as spec;

use enc_ast::Word;
use enc_modes::{Ty, is_linear};
use std::alloc::{AllocError, Global};
use std::marker::Model;
use std::rc::Rc;

/// How a variable was declared. Scopes that are copied from one another share it.
#[derive(Drop)]
struct Declared {
    word: Word,
    ty: Option<Ty>,
}

#[derive(Drop)]
struct Var {
    declared: Rc<Declared>,
    moved: bool,
}

impl Model for Var {
    ghost use Rattle.std.specs.Coded.{codes};
    ghost use Rattle.enc_modes.specs.contracts.ty.Ty as ty;
    ghost use Rattle.enc_flow.specs.Vars as value;

    ghost Value = { value.Var };

    ghost coded = { Prim.hlevel (codes, ty.the_row.coded) };

    ghost view = { λ var. record { word = var.declared.value.word; ty = var.declared.value.ty; moved = var.moved } };
}

impl Var {
    fn copy(&self) -> Result<Var, AllocError>
        ensures { IfOk result (λ copied. copied ≡ self.now) }
    {
        Ok(Var {
            declared: self.declared.clone()?,
            moved: self.moved,
        })
    }
}

/// The variables that are visible while a text is judged, in the order in which they were declared. A
/// variable goes by its place in that order, from 0 on. There are at most 1,024.
#[derive(Drop)]
pub struct Scope {
    vars: Vec<Var>,
}

impl Model for Scope {
    ghost use Rattle.std.specs.Prelude.{List, length, ◌≤◌};
    ghost use Rattle.std.specs.Coded.{codes};
    ghost use Rattle.enc_modes.specs.contracts.ty.Ty as ty;
    ghost use Rattle.enc_flow.specs.Vars as value;

    ghost Value = { List value.Var };

    ghost coded = { Prim.hlevel (codes, ty.the_row.coded) };

    ghost view = { λ scope. scope.vars.items };

    ghost invariant = { λ scope. length scope.vars.items ≤ 1024 };
}

impl Scope {
    /// No variable. It takes no memory yet.
    pub fn new(alloc: Global) -> Scope
        ensures { result ≡ [] }
    {
        Scope {
            vars: Vec::new(alloc),
        }
    }

    /// How many variables are visible.
    pub fn len(&self) -> usize
        ensures value { result ≡ length self.now }
        ensures few { result ≤ 1024 }
    {
        self.vars.len()
    }

    /// Whether no variable is visible.
    pub fn is_empty(&self) -> bool
        ensures { IsTrue result ↔ (self.now ≡ []) }
    {
        self.vars.is_empty()
    }

    /// Adds a variable of a known type, which isn't moved, and answers its number. Where memory runs out
    /// the word and the type are lost, and the variables stay as they were.
    pub fn declare(&mut self, word: Word, ty: Ty) -> Result<u32, AllocError>
        requires { length self.old < 1024 }
        ensures ok { OnOk result (self.new ≡ spec.declares self.old word (Some ty)) }
        ensures number { IfOk result (λ number. number ≡ length self.old) }
        ensures err { OnErr result (self.new ≡ self.old) }
    {
        self.add(word, Some(ty))
    }

    /// Adds a variable of which no type is known, and answers its number. Where memory runs out the word
    /// is lost, and the variables stay as they were.
    pub fn declare_unknown(&mut self, word: Word) -> Result<u32, AllocError>
        requires { length self.old < 1024 }
        ensures ok { OnOk result (self.new ≡ spec.declares self.old word None) }
        ensures number { IfOk result (λ number. number ≡ length self.old) }
        ensures err { OnErr result (self.new ≡ self.old) }
    {
        self.add(word, None)
    }

    fn add(&mut self, word: Word, ty: Option<Ty>) -> Result<u32, AllocError>
        requires { length self.old < 1024 }
        ensures ok { OnOk result (self.new ≡ spec.declares self.old word ty) }
        ensures number { IfOk result (λ number. number ≡ length self.old) }
        ensures err { OnErr result (self.new ≡ self.old) }
    {
        let number = self.vars.len();
        let declared = Rc::new(*self.vars.allocator(), Declared { word, ty })?;
        self.vars.push(Var {
            declared,
            moved: false,
        })?;
        Ok(number as u32)
    }

    /// The number of the variable of this name, or `None` where there is none. Of several it is the one
    /// that was declared last.
    #[tactic(auto, using(crate::proofs::Vars::newest), unfolding(crate::specs::Env::number_of))]
    pub fn find(&self, name: &str) -> Option<u32>
        ensures value { result ≡ spec.number_of self.now name.now }
        ensures within { IfSome result (λ number. number < length self.now) }
    {
        let mut at = self.vars.len();
        while at > 0 {
            at -= 1;
            if self.vars[at].declared.word.is(name) {
                return Some(at as u32);
            }
        }
        None
    }

    /// The type of a variable, or `None` where it isn't known.
    pub fn known(&self, variable: u32) -> Option<&Ty>
        requires { variable < length self.now }
        ensures { option_copied result ≡ spec.ty_of (slice_get self.now variable) }
    {
        self.vars[variable as usize].declared.ty.as_ref()
    }

    /// Whether a variable was moved.
    pub fn is_moved(&self, variable: u32) -> bool
        requires { variable < length self.now }
        ensures { result ≡ spec.moved_of (slice_get self.now variable) }
    {
        self.vars[variable as usize].moved
    }

    /// Uses a variable up: where its type is linear, it is moved from now on. Answers false where it was
    /// moved before. It takes no memory.
    pub fn take(&mut self, variable: u32) -> bool
        requires { variable < length self.old }
        ensures value { self.new ≡ spec.takes self.old variable }
        ensures free { result ≡ not (spec.moved_of (slice_get self.old variable)) }
    {
        let free = !self.is_moved(variable);
        if self.is_linear_at(variable) {
            self.mark(variable, true);
        }
        free
    }

    /// Makes a variable usable again, as when a value is put into it. It takes no memory.
    pub fn give(&mut self, variable: u32)
        requires { variable < length self.old }
        ensures { self.new ≡ spec.marked_at self.old variable false }
    {
        self.mark(variable, false);
    }

    fn is_linear_at(&self, variable: u32) -> bool
        requires { variable < length self.now }
        ensures { result ≡ spec.linear (spec.ty_of (slice_get self.now variable)) }
    {
        match self.known(variable) {
            None => false,
            Some(ty) => is_linear(ty),
        }
    }

    #[tactic(auto, unfolding(crate::specs::Env::marked_at))]
    fn mark(&mut self, variable: u32, moved: bool)
        requires { variable < length self.old }
        ensures { self.new ≡ spec.marked_at self.old variable moved }
    {
        self.vars[variable as usize].moved = moved;
    }

    /// Keeps the first variables, `count` of them or all where there are fewer, and drops the others.
    pub fn cut(&mut self, count: u32)
        ensures { self.new ≡ take count self.old }
    {
        self.vars.truncate(count as usize);
    }

    /// A scope of its own with the same variables, moved or not, or `AllocError` where memory runs out. Words
    /// and types are shared and not copied.
    pub fn copy(&self) -> Result<Scope, AllocError>
        ensures { IfOk result (λ copied. copied ≡ self.now) }
    {
        let mut vars = Vec::new(*self.vars.allocator());
        for var in &self.vars {
            vars.push(var.copy()?)?;
        }
        Ok(Scope { vars })
    }

    /// Each variable that is moved in the other scope is moved in this one too. It takes no memory.
    #[tactic(auto, using(crate::proofs::Vars::merging))]
    pub fn merge(&mut self, other: &Scope)
        ensures { self.new ≡ spec.merged self.old other.now }
    {
        let both = self.vars.len().min(other.vars.len());
        for at in 0..both {
            self.vars[at].moved |= other.vars[at].moved;
        }
    }

    /// Whether both have as many variables and the same of them are moved. It takes no memory.
    #[tactic(auto, using(crate::proofs::Vars::comparing))]
    pub fn same_moves(&self, other: &Scope) -> bool
        ensures { result ≡ spec.same_moves self.now other.now }
    {
        if self.vars.len() != other.vars.len() {
            return false;
        }
        for at in 0..self.vars.len() {
            if self.vars[at].moved != other.vars[at].moved {
                return false;
            }
        }
        true
    }
}
