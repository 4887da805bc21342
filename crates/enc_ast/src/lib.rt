//! The tree of a program, the rules by which a text can be refused, and the lists and words that both are made of.
#![tactic(auto)]

mod decls;
mod exprs;
mod keywords;
mod lines;
mod row;
mod rules;
mod sources;
mod stmts;
mod types;
mod word;

pub use decls::{
    ActiveDecl, ClassDecl, Decl, Field, GroupText, Method, ModeWord, Name, Param, Program,
    TraitDecl,
};
pub use exprs::{Expr, ExprForm, Operator};
pub use keywords::is_keyword;
pub use lines::place;
pub use row::Row;
pub use rules::{Fail, Reject, Rule, Span};
pub use sources::{Source, SourceForm};
pub use sqlite_items::{Boxed, Items};
pub use stmts::{Receiver, Stmt, StmtForm};
pub use types::{TypeForm, TypeText};
pub use word::Word;
