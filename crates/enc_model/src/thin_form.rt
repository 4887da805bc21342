// Whether a program is in the thin form: which variables are bound where.
ghost use Rattle.std.specs.Prelude.{◌≡◌, ◌&&◌, []};
ghost use Rattle.enc_ast.specs.Thin as thin;
ghost use Rattle.enc_model.specs.Scope.{words_of, is_part as is_part_of};

use enc_ast::{
    Decl, Expr, ExprForm, Field, Method, Operator, Param, Program, SourceForm, Stmt, StmtForm,
    TypeForm, TypeText, is_keyword,
};

/// How many variables a body can bind.
const MAX_VARIABLES: usize = 254;

/// Whether a program is in the thin form: one active class `Main` with no field, whose one method
/// `main` binds integers to variables, at most 254 of them, and prints. Any brackets may stand round a
/// whole sum and round its parts. The answer takes no memory.
pub fn thin(program: &Program) -> bool
    ensures { result ≡ thin.is_thin program.now }
{
    is_main_class(program.decls.as_slice())
}

fn is_main_class(decls: &[Decl]) -> bool
    ensures { result ≡ thin.is_main_class decls.now }
{
    match decls {
        [Decl::Active(class)] => {
            class.name.word.is("Main")
                && is_empty(class.fields.as_slice())
                && is_main(class.methods.as_slice())
        }
        _ => false,
    }
}

fn is_empty(fields: &[Field]) -> bool
    ensures { result ≡ thin.is_empty fields.now }
{
    fields.is_empty()
}

fn is_main(methods: &[Method]) -> bool
    ensures { result ≡ thin.is_main methods.now }
{
    match methods {
        [method] => {
            method.name.word.is("main")
                && is_args(method.params.as_slice())
                && is_unit(&method.result)
                && is_body(method.body.as_slice())
        }
        _ => false,
    }
}

fn is_args(params: &[Param]) -> bool
    ensures { result ≡ thin.is_args params.now }
{
    match params {
        [param] => param.name.word.is("args") && is_int_list(&param.ty),
        _ => false,
    }
}

fn is_int(ty: &TypeText) -> bool
    ensures { result ≡ thin.is_int ty.now }
{
    matches!(ty.form, TypeForm::Int)
}

fn is_unit(ty: &TypeText) -> bool
    ensures { result ≡ thin.is_unit ty.now }
{
    matches!(ty.form, TypeForm::Unit)
}

fn is_int_list(ty: &TypeText) -> bool
    ensures { result ≡ thin.is_int_list ty.now }
{
    match &ty.form {
        TypeForm::List(item) => is_int(item.get()),
        _ => false,
    }
}

fn is_body(stmts: &[Stmt]) -> bool
    ensures { result ≡ thin.is_body [] stmts.now }
{
    let mut names = [""; MAX_VARIABLES];
    let mut count = 0;
    for stmt in stmts {
        if !is_line(&names[..count], &stmt.form) {
            return false;
        }
        if let StmtForm::Let(name, _) = &stmt.form {
            if count == MAX_VARIABLES {
                return false;
            }
            names[count] = name.word.as_str();
            count += 1;
        }
    }
    true
}

fn is_line(names: &[&str], form: &StmtForm) -> bool
    ensures { result ≡ thin.is_line (words_of names.now) form.now }
{
    match form {
        StmtForm::Let(name, source) => {
            is_free(names, name.word.as_str()) && is_sum_source(names, &source.form)
        }
        StmtForm::Print(items) => is_some_items(names, items.as_slice()),
        _ => false,
    }
}

fn is_free(names: &[&str], word: &str) -> bool
    ensures { result ≡ thin.is_free (words_of names.now) word.now }
{
    !is_among(names, word) && word != "args" && !is_keyword(word)
}

fn is_among(names: &[&str], word: &str) -> bool
    ensures { result ≡ thin.is_among (words_of names.now) word.now }
{
    names.iter().any(|&name| name == word)
}

fn is_sum_source(names: &[&str], form: &SourceForm) -> bool
    ensures { result ≡ thin.is_sum_source (words_of names.now) form.now }
{
    match form {
        SourceForm::Expr(expr) => is_sum(names, expr),
        _ => false,
    }
}

fn is_some_items(names: &[&str], items: &[Expr]) -> bool
    ensures { result ≡ thin.is_some_items (words_of names.now) items.now }
{
    for item in items {
        if !is_item(names, item) {
            return false;
        }
    }
    !items.is_empty()
}

#[tactic(auto, using(crate::proofs::Scopes::shapes))]
fn is_item(names: &[&str], expr: &Expr) -> bool
    ensures { result ≡ thin.is_item (words_of names.now) expr.now }
{
    match &expr.form {
        ExprForm::Text(_) => true,
        _ => is_sum(names, expr),
    }
}

#[tactic(auto, using(crate::proofs::Scopes::shapes))]
fn is_sum(names: &[&str], expr: &Expr) -> bool
    ensures { result ≡ thin.is_sum (words_of names.now) expr.now }
{
    match &expr.form {
        ExprForm::Parens(inside) => is_sum(names, inside.get()),
        ExprForm::Binary(operator, left, right) => {
            is_arithmetic(*operator) && are_parts(names, left.get(), right.get())
        }
        _ => is_part(names, expr),
    }
}

fn is_arithmetic(operator: Operator) -> bool
    ensures { result ≡ thin.is_arithmetic operator }
{
    matches!(
        operator,
        Operator::Add | Operator::Subtract | Operator::Multiply
    )
}

fn are_parts(names: &[&str], left: &Expr, right: &Expr) -> bool
    ensures { result ≡ (is_part_of (words_of names.now) left.now && is_part_of (words_of names.now) right.now) }
{
    is_part(names, left) && is_part(names, right)
}

#[tactic(auto, using(crate::proofs::Scopes::shapes))]
fn is_part(names: &[&str], expr: &Expr) -> bool
    ensures { result ≡ is_part_of (words_of names.now) expr.now }
{
    match &expr.form {
        ExprForm::Parens(inside) => is_part(names, inside.get()),
        ExprForm::Int(_) => true,
        ExprForm::Name(word) => is_among(names, word.as_str()),
        _ => false,
    }
}
