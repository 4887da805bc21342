// Programs and their declarations.

use crate::{Row, Span, Stmt, TypeText, Word};

/// A program: its declarations in the order of the text.
#[derive(Drop)]
pub struct Program {
    pub decls: Row<Decl>,
    /// The whole text.
    pub span: Span,
}

impl Program {
    ghost use Rattle.std.specs.Prelude.{◌≡◌};
    ghost use Rattle.enc_ast.specs.Thin.{body_of};

    /// The statements of the first method of an active class that comes first, or none where there is
    /// no such method. In the thin form that method is `main`.
    pub fn body(&self) -> &[Stmt]
        ensures { result.now ≡ body_of self.now }
    {
        match self.decls.get(0) {
            Some(Decl::Active(class)) => class.first_body(),
            _ => &[],
        }
    }
}

/// One declaration of a program.
#[derive(Drop)]
pub enum Decl {
    Trait(TraitDecl),
    Class(ClassDecl),
    Active(ActiveDecl),
    /// A function, which stands by itself and has no `this`.
    Fun(Method),
}

/// A trait: fields and methods, and the mode of the references that have it.
#[derive(Drop)]
pub struct TraitDecl {
    pub mode: ModeWord,
    pub name: Name,
    pub fields: Row<Field>,
    pub methods: Row<Method>,
    pub span: Span,
}

/// How the references of a trait may be used.
#[derive(Clone, Copy, Debug, PartialEq, Eq)]
pub enum ModeWord {
    Linear,
    Local,
    Read,
    Subordinate,
}

/// A class of passive objects, as the groups of traits that it is made of.
#[derive(Drop)]
pub struct ClassDecl {
    pub name: Name,
    pub groups: Row<GroupText>,
    pub span: Span,
}

/// One trait, or a disjunction of several in brackets.
#[derive(Drop)]
pub struct GroupText {
    pub names: Row<Name>,
    pub span: Span,
}

/// A class of objects that have their own thread of control.
#[derive(Drop)]
pub struct ActiveDecl {
    pub name: Name,
    pub fields: Row<Field>,
    pub methods: Row<Method>,
    pub span: Span,
}

impl ActiveDecl {
    ghost use Rattle.std.specs.Prelude.{◌≡◌};
    ghost use Rattle.enc_ast.specs.Thin.{first_body};

    fn first_body(&self) -> &[Stmt]
        ensures { result.now ≡ first_body self.now.methods }
    {
        match self.methods.get(0) {
            Some(method) => method.body.as_slice(),
            None => &[],
        }
    }
}

/// A field of an object, with its type.
#[derive(Drop)]
pub struct Field {
    pub name: Name,
    pub ty: TypeText,
    pub span: Span,
}

/// A method of a trait or of an active class, or a function.
#[derive(Drop)]
pub struct Method {
    pub name: Name,
    pub params: Row<Param>,
    pub result: TypeText,
    pub body: Row<Stmt>,
    pub span: Span,
}

/// A parameter of a method, with its type.
#[derive(Drop)]
pub struct Param {
    pub name: Name,
    pub ty: TypeText,
    pub span: Span,
}

/// A name at a place of the text.
#[derive(Drop)]
pub struct Name {
    pub word: Word,
    pub span: Span,
}
