// Whether a body ends with a return.
ghost use Rattle.std.specs.Prelude.{◌≡◌, ◌&&◌, option_map};
ghost use Rattle.std.specs.Option.{option_copied};
ghost use Rattle.enc_rules.specs.Stmts as spec;

use enc_ast::{Items, Stmt, StmtForm};

/// Whether the last of the statements returns. It takes no memory.
#[cycle(returns)]
#[tactic(auto, using(crate::proofs::Blocks::lasts))]
pub fn last_returns(stmts: &[Stmt]) -> bool
    ensures { result ≡ spec.last_returns (spec.acts stmts.now) }
{
    if stmts.is_empty() {
        return false;
    }
    returns(&stmts[stmts.len() - 1])
}

#[cycle(returns)]
#[tactic(auto, using(crate::proofs::Meaning::returns))]
fn returns(stmt: &Stmt) -> bool
    ensures { result ≡ (spec.act stmt.now).returns }
{
    match &stmt.form {
        StmtForm::Let(_, _) => false,
        StmtForm::Assign(_, _) => false,
        StmtForm::Store(_, _, _) => false,
        StmtForm::Call(_, _, _) => false,
        StmtForm::Send(_, _, _) => false,
        StmtForm::If(_, then, other) => if_returns(then.as_slice(), other.as_ref()),
        StmtForm::While(_, _) => false,
        StmtForm::Atomic(_, _) => false,
        StmtForm::Split(_, _, _, _, _) => false,
        StmtForm::Pack(_, _, _, one, two) => both_return(one.as_slice(), two.as_slice()),
        StmtForm::Choose(_, _, _) => false,
        StmtForm::Return(_) => true,
        StmtForm::Print(_) => false,
        StmtForm::Suspend => false,
    }
}

#[cycle(returns)]
fn if_returns(then: &[Stmt], other: Option<&Items<Stmt>>) -> bool
    ensures { result ≡ (spec.last_returns (spec.acts then.now) && spec.else_returns (option_map spec.acts (option_copied other.entry))) }
{
    last_returns(then) && other_returns(other)
}

#[cycle(returns)]
fn other_returns(stmts: Option<&Items<Stmt>>) -> bool
    ensures { result ≡ spec.else_returns (option_map spec.acts (option_copied stmts.entry)) }
{
    match stmts {
        None => false,
        Some(stmts) => last_returns(stmts.as_slice()),
    }
}

#[cycle(returns)]
fn both_return(one: &[Stmt], two: &[Stmt]) -> bool
    ensures { result ≡ (spec.last_returns (spec.acts one.now) && spec.last_returns (spec.acts two.now)) }
{
    last_returns(one) && last_returns(two)
}
