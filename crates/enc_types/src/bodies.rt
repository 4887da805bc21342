// The types that are written in a body.
ghost use Rattle.std.specs.Option.{option_copied};
ghost use Rattle.enc_premises.specs.Premises.{◌⨾◌};
ghost use Rattle.enc_premises.specs.Passing.{Passes};
ghost use Rattle.enc_types.specs.Bodies as spec;
ghost use Rattle.enc_types.specs.Written.{type_premises};

use crate::Names;
use enc_ast::{Expr, ExprForm, Fail, Items, SourceForm, Stmt, StmtForm, TypeText};

/// Refuses the first type in a body that breaks a rule, by that rule and at that part of the type. It
/// also fails where memory runs out.
#[cycle(stmt)]
pub fn body_types(names: &Names, body: &[Stmt]) -> Result<(), Fail>
    ensures { Passes result (spec.body_types names.now body.now) }
{
    for stmt in body {
        stmt_types(names, stmt)?;
    }
    Ok(())
}

#[cycle(stmt)]
#[tactic(auto, using(crate::proofs::BodyFolds::stmts, enc_premises::proofs::Passing::passing))]
fn stmt_types(names: &Names, stmt: &Stmt) -> Result<(), Fail>
    ensures { Passes result (spec.stmt_types names.now stmt.now) }
{
    match &stmt.form {
        StmtForm::Let(_, source) => source_types(names, &source.form),
        StmtForm::Assign(_, value) => expr_types(names, value),
        StmtForm::Store(_, _, value) => expr_types(names, value),
        StmtForm::Call(_, _, args) => exprs_types(names, args.as_slice()),
        StmtForm::Send(_, _, args) => exprs_types(names, args.as_slice()),
        StmtForm::If(condition, block, other) => {
            if_types(names, condition, block.as_slice(), other.as_ref())
        }
        StmtForm::While(condition, block) => block_types(names, condition, block.as_slice()),
        StmtForm::Atomic(owner, block) => block_types(names, owner, block.as_slice()),
        StmtForm::Split(_, _, first, _, second) => two_types(names, first, second),
        StmtForm::Pack(_, _, _, block, other) => {
            two_blocks(names, block.as_slice(), other.as_slice())
        }
        StmtForm::Choose(_, _, _) => Ok(()),
        StmtForm::Return(value) => expr_types(names, value),
        StmtForm::Print(values) => exprs_types(names, values.as_slice()),
        StmtForm::Suspend => Ok(()),
    }
}

#[cycle(stmt)]
#[tactic(auto, using(enc_premises::proofs::Passing::passing))]
fn if_types(
    names: &Names,
    condition: &Expr,
    block: &[Stmt],
    other: Option<&Items<Stmt>>,
) -> Result<(), Fail>
    ensures { Passes result (spec.expr_types names.now condition.now ⨾ spec.body_types names.now block.now ⨾ spec.else_types names.now (option_copied other.entry)) }
{
    expr_types(names, condition)?;
    body_types(names, block)?;
    else_types(names, other)
}

#[cycle(stmt)]
#[tactic(auto, using(enc_premises::proofs::Passing::passing))]
fn else_types(names: &Names, block: Option<&Items<Stmt>>) -> Result<(), Fail>
    ensures { Passes result (spec.else_types names.now (option_copied block.entry)) }
{
    match block {
        None => Ok(()),
        Some(block) => body_types(names, block.as_slice()),
    }
}

#[cycle(stmt)]
#[tactic(auto, using(enc_premises::proofs::Passing::passing))]
fn block_types(names: &Names, head: &Expr, block: &[Stmt]) -> Result<(), Fail>
    ensures { Passes result (spec.expr_types names.now head.now ⨾ spec.body_types names.now block.now) }
{
    expr_types(names, head)?;
    body_types(names, block)
}

#[cycle(stmt)]
#[tactic(auto, using(enc_premises::proofs::Passing::passing))]
fn two_blocks(names: &Names, block: &[Stmt], other: &[Stmt]) -> Result<(), Fail>
    ensures { Passes result (spec.body_types names.now block.now ⨾ spec.body_types names.now other.now) }
{
    body_types(names, block)?;
    body_types(names, other)
}

#[tactic(auto, using(enc_premises::proofs::Passing::passing))]
fn source_types(names: &Names, source: &SourceForm) -> Result<(), Fail>
    ensures { Passes result (spec.source_types names.now source.now) }
{
    match source {
        SourceForm::Expr(value) => expr_types(names, value),
        SourceForm::New(_) => Ok(()),
        SourceForm::Field(_, _) => Ok(()),
        SourceForm::Take(_, _) => Ok(()),
        SourceForm::Call(_, _, args) => exprs_types(names, args.as_slice()),
        SourceForm::Send(_, _, args) => exprs_types(names, args.as_slice()),
        SourceForm::Get(value) => expr_types(names, value),
        SourceForm::Await(value) => expr_types(names, value),
        SourceForm::Chain(value, _, args) => applied_types(names, value, args.as_slice()),
        SourceForm::Lift(value) => expr_types(names, value),
        SourceForm::LiftFuture(value) => expr_types(names, value),
        SourceForm::Each(value) => expr_types(names, value),
        SourceForm::Both(value, other) => two_exprs(names, value, other),
        SourceForm::Otherwise(value, other) => two_exprs(names, value, other),
        SourceForm::Seq(value, _, args) => applied_types(names, value, args.as_slice()),
        SourceForm::Join(value) => expr_types(names, value),
        SourceForm::Prune(value) => expr_types(names, value),
        SourceForm::Extract(value) => expr_types(names, value),
        SourceForm::Bestow(value) => expr_types(names, value),
    }
}

#[tactic(auto, using(enc_premises::proofs::Passing::passing))]
fn applied_types(names: &Names, value: &Expr, args: &[Expr]) -> Result<(), Fail>
    ensures { Passes result (spec.expr_types names.now value.now ⨾ spec.exprs_types names.now args.now) }
{
    expr_types(names, value)?;
    exprs_types(names, args)
}

#[cycle(expr)]
fn exprs_types(names: &Names, exprs: &[Expr]) -> Result<(), Fail>
    ensures { Passes result (spec.exprs_types names.now exprs.now) }
{
    for expr in exprs {
        expr_types(names, expr)?;
    }
    Ok(())
}

#[cycle(expr)]
#[tactic(auto, using(crate::proofs::BodyFolds::exprs, enc_premises::proofs::Passing::passing))]
fn expr_types(names: &Names, expr: &Expr) -> Result<(), Fail>
    ensures { Passes result (spec.expr_types names.now expr.now) }
{
    match &expr.form {
        ExprForm::Binary(_, left, right) => two_exprs(names, left.get(), right.get()),
        ExprForm::Negative(inside) => expr_types(names, inside.get()),
        ExprForm::Not(inside) => expr_types(names, inside.get()),
        ExprForm::Int(_) => Ok(()),
        ExprForm::Text(_) => Ok(()),
        ExprForm::True => Ok(()),
        ExprForm::False => Ok(()),
        ExprForm::Unit => Ok(()),
        ExprForm::This => Ok(()),
        ExprForm::Name(_) => Ok(()),
        ExprForm::Parens(inside) => expr_types(names, inside.get()),
        ExprForm::List(items) => exprs_types(names, items.as_slice()),
        ExprForm::Null(ty) => one_type(names, ty),
        ExprForm::Empty(ty) => one_type(names, ty),
        ExprForm::Nil(ty) => one_type(names, ty),
        ExprForm::Len(list) => expr_types(names, list.get()),
        ExprForm::IsNull(inside) => expr_types(names, inside.get()),
        ExprForm::At(list, number) => two_exprs(names, list.get(), number.get()),
        ExprForm::Append(list, item) => two_exprs(names, list.get(), item.get()),
    }
}

#[cycle(expr)]
#[tactic(auto, using(enc_premises::proofs::Passing::passing))]
fn two_exprs(names: &Names, left: &Expr, right: &Expr) -> Result<(), Fail>
    ensures { Passes result (spec.expr_types names.now left.now ⨾ spec.expr_types names.now right.now) }
{
    expr_types(names, left)?;
    expr_types(names, right)
}

#[tactic(auto, using(enc_premises::proofs::Passing::passing))]
fn two_types(names: &Names, first: &TypeText, second: &TypeText) -> Result<(), Fail>
    ensures { Passes result (type_premises names.now first.now ⨾ type_premises names.now second.now) }
{
    one_type(names, first)?;
    one_type(names, second)
}

fn one_type(names: &Names, ty: &TypeText) -> Result<(), Fail>
    ensures { Passes result (type_premises names.now ty.now) }
{
    names.written(ty)?;
    Ok(())
}
