// The rules of expressions: what is refused, by which rule and where, and what has which type.

use crate::marked::{count, joined, unmarked};
use enc_ast::{Decl, Expr, ExprForm, Fail as Refusal, Program, Reject, Span, StmtForm, Word};
use enc_exprs::{Told, Use, expr_type, typed};
use enc_flow::{Env, Scope};
use enc_modes::Ty;
use enc_names::{Tables, tables};
use enc_parse::parse;
use enc_rules::type_of;
use std::alloc::{AllocError, Global};
use std::process::Abort;
use std::test::Fail;

/// Declarations, of which the first is a trait whose fields are the variables of the tests.
const HEAD: &str =
    "local trait Variables { k: int; b: bool; t: text; u: unit; x: A; m: A; l: L; r: R; d: D; xs: List[int]; fs: List[Fut[int]]; rs: List[R]; f: Fut[int]; p: Par[int]; w: Bestowed[L]; } linear trait A { } local trait L { } read trait R { } active class D { } active class Main { def main(args: List[int]): unit { print ";

/// What stands behind the expression.
const TAIL: &str = "; } }";

/// The names of the variables.
const NAMES: &str = "k b t u x m l r d xs fs rs f p w";

/// A program that prints an expression, with its tables and variables. `m` is moved.
#[derive(Drop)]
struct Setting {
    program: Program,
    tables: Tables,
    env: Env,
}

impl Setting {
    fn of(alloc: Global, expr: &str) -> Result<Setting, Fail> {
        let text = joined(alloc, HEAD, expr, TAIL)?;
        let program = parse(alloc, text.as_bytes())?;
        let tables = tables(alloc, &program)?;
        let mut env = Env::new(alloc);
        for name in NAMES.split(' ') {
            if let Some(ty) = field_type(&tables, name) {
                declare(&mut env, Word::copy_of(alloc, name)?, ty.share()?)?;
            }
        }
        if let Some(moved) = env.find("m") {
            env.take(moved);
        }
        Ok(Setting {
            program,
            tables,
            env,
        })
    }

    /// What the rules say of the expression, which is copied.
    fn judge(&self, rt: &impl Abort, alloc: Global) -> Result<Ty, Refusal> {
        let Some(expr) = printed(&self.program) else {
            panic!(rt; "an expression")
        };
        type_of(alloc, &self.tables, &self.env, expr)
    }
}

/// Declares a variable where there is room for one more.
fn declare(env: &mut Env, word: Word, ty: Ty) -> Result<(), AllocError> {
    if env.len() < 1024 {
        env.declare(word, ty)?;
    }
    Ok(())
}

fn field_type<'a>(tables: &'a Tables, name: &str) -> Option<&'a Ty> {
    tables.field_ty(0, tables.field(0, name)?)
}

/// The first expression that `main` prints.
fn printed(program: &Program) -> Option<&Expr> {
    let Decl::Active(class) = program.decls.last()? else {
        return None;
    };
    let StmtForm::Print(items) = &class.methods.get(0)?.body.get(0)?.form else {
        return None;
    };
    items.get(0)
}

/// Checks rows, each of which is a rule and an expression in which the place is marked.
fn check_refused(rt: &impl Abort, alloc: Global, rows: &str) -> Result<(), Fail> {
    for row in rows.lines() {
        let Some((rule, marked)) = row.split_once(' ') else {
            panic!(rt; "a rule and an expression")
        };
        let Some(row) = unmarked(alloc, marked)? else {
            panic!(rt; "a marked expression")
        };
        let setting = Setting::of(alloc, row.text.as_str())?;
        let found = match setting.judge(rt, alloc) {
            Err(Refusal::Reject(Reject { rule, span })) => Some((rule.name(), span)),
            _ => None,
        };
        assert_eq!(rt; found, Some((rule, behind_head(row.span))), "{marked}");
    }
    Ok(())
}

/// The place of a part of the expression in the whole text.
fn behind_head(span: Span) -> Span {
    let before = count(HEAD);
    Span {
        start: span.start.saturating_add(before),
        end: span.end.saturating_add(before),
    }
}

const UNSEEN: &str = "E-VAR «z»
E-VAR k + «z»
E-VAR isnull(«z»)
E-VAR «this»
E-VAR [1, «z»]";

#[test]
fn variables_are_visible(rt: HostRuntime) -> Result<(), Fail> {
    check_refused(&rt, rt.alloc(), UNSEEN)
}

const MOVED: &str = "E-MOVED «m»
E-MOVED («m»)
E-MOVED isnull(«m»)
E-MOVED 1 + «m»
E-MOVED [«m», z]";

#[test]
fn variables_may_be_moved(rt: HostRuntime) -> Result<(), Fail> {
    check_refused(&rt, rt.alloc(), MOVED)
}

const COPIED: &str = "E-COPY «x»
E-COPY (((«x»)))
E-COPY isnull((«x»))
E-COPY [«x»]
E-COPY 1 + «x»
E-COPY «x» == z";

#[test]
fn linear_variables_are_not_copied(rt: HostRuntime) -> Result<(), Fail> {
    check_refused(&rt, rt.alloc(), COPIED)
}

const BAD_TYPES: &str = "E-TYPE «b» + 1
E-TYPE 1 - «b»
E-TYPE «t» * z
E-TYPE «(1 < 2)» % 2
E-TYPE «b» < 1
E-TYPE 1 >= «t»
E-TYPE 1 == «b»
E-TYPE «xs» == xs
E-TYPE «u» != u
E-TYPE \"a\" != «1»
E-TYPE «k» and z
E-TYPE b or «k»
E-TYPE not «k»
E-TYPE -«b»
E-TYPE [1, «b», z]
E-TYPE [«l», z]
E-TYPE [«null[A]», z]
E-TYPE [r, «k»]
E-TYPE len(«k»)
E-TYPE at(«k», z)
E-TYPE at(xs, «b»)
E-TYPE append(xs, «b»)
E-TYPE append(«k», z)
E-TYPE append(fs, «1»)
E-TYPE isnull(«k»)
E-TYPE isnull(«xs»)
E-TYPE «null[int]»
E-TYPE «null[List[int]]»
E-TYPE «empty[A]»
E-TYPE «nil[L]»
E-TYPE len([nil[int], «1 + 2»])";

#[test]
fn operands_have_the_types_that_are_asked(rt: HostRuntime) -> Result<(), Fail> {
    check_refused(&rt, rt.alloc(), BAD_TYPES)
}

/// Expressions, each behind a variable of the same type.
const TYPED: &str = "k 1
k (k) * -k % 3 + 2 / 1
b 1 + 2 < k
b 1 == k
b b != false
b t == \"a\"
b not b and b or k >= 2
t \"a\"
u unit
b true
l l
r (r)
d d
xs [k, 2]
rs [r]
rs [r, r, null[R]]
fs [f, f]
k at(xs, 0)
k at([1, 2], 0)
xs at([xs], 0)
f at(fs, len(fs) - 1)
xs append(xs, at(xs, 0))
xs append([1], 2)
k len(rs)
b isnull(x)
b isnull(f)
b isnull(d)
b isnull(w)
l null[L]
d null[D]
w null[Bestowed[L]]
f null[Fut[int]]
p empty[int]
xs nil[int]
rs nil[R]
b isnull(null[A])";

#[test]
fn expressions_have_types(rt: HostRuntime) -> Result<(), Fail> {
    let alloc = rt.alloc();
    for row in TYPED.lines() {
        let Some((like, expr)) = row.split_once(' ') else {
            panic!(rt; "a variable and an expression")
        };
        let setting = Setting::of(alloc, expr)?;
        let Ok(found) = setting.judge(&rt, alloc) else {
            panic!(rt; "a type of {expr}")
        };
        let due = field_type(&setting.tables, like);
        assert!(rt; due.is_some_and(|due| found.is(due)), "{expr}");
    }
    Ok(())
}

/// One variable, the integer `k`.
fn only_k(alloc: Global) -> Result<Env, AllocError> {
    let mut env = Env::new(alloc);
    let word = Word::copy_of(alloc, "k")?;
    env.declare(word, Ty::Int)?;
    Ok(env)
}

/// The variable of a name, at these bytes of a text.
fn variable_at(alloc: Global, name: &str, start: u32, end: u32) -> Result<Expr, AllocError> {
    Ok(Expr {
        form: ExprForm::Name(Word::copy_of(alloc, name)?),
        span: Span { start, end },
    })
}

/// The rule and the place of a refusal.
fn pair_of(answer: Result<Ty, Refusal>) -> Option<(&'static str, u32, u32)> {
    match answer {
        Err(Refusal::Reject(Reject { rule, span })) => Some((rule.name(), span.start, span.end)),
        _ => None,
    }
}

#[test]
fn variables_are_typed_by_tables(rt: HostRuntime) -> Result<(), Fail> {
    let alloc = rt.alloc();
    let tables = Setting::of(alloc, "1")?.tables;
    let env = only_k(alloc)?;
    let seen = variable_at(alloc, "k", 0, 1)?;
    assert!(rt; matches!(&type_of(alloc, &tables, &env, &seen), Ok(Ty::Int)));
    assert!(rt; matches!(&typed(alloc, tables.names(), &env, &seen), Ok(Ty::Int)));
    let unseen = variable_at(alloc, "z", 4, 5)?;
    let found = pair_of(type_of(alloc, &tables, &env, &unseen));
    assert_eq!(rt; found, Some(("E-VAR", 4, 5)));
    let found = pair_of(typed(alloc, tables.names(), &env, &unseen));
    assert_eq!(rt; found, Some(("E-VAR", 4, 5)));
    Ok(())
}

#[test]
fn no_rule_fails_because_of_an_unknown_type(rt: HostRuntime) -> Result<(), Fail> {
    let alloc = rt.alloc();
    let tables = Setting::of(alloc, "1")?.tables;
    let mut scope = Scope::new(alloc);
    scope.declare_unknown(Word::copy_of(alloc, "z")?)?;
    let seen = variable_at(alloc, "z", 0, 1)?;
    for place in [Use::Copies, Use::Consumes, Use::Looks] {
        let found = expr_type(alloc, tables.names(), &scope, &seen, place);
        assert!(rt; matches!(found, Ok(Told::Unknown)));
    }
    Ok(())
}

#[test]
fn a_type_that_is_none_is_refused(rt: HostRuntime) -> Result<(), Fail> {
    let alloc = rt.alloc();
    let tables = Setting::of(alloc, "1")?.tables;
    let env = only_k(alloc)?;
    let text = joined(alloc, HEAD, "null[Nope]", TAIL)?;
    let program = parse(alloc, text.as_bytes())?;
    let Some(expr) = printed(&program) else {
        panic!(rt; "an expression")
    };
    let found = pair_of(type_of(alloc, &tables, &env, expr));
    let start = count(HEAD);
    assert_eq!(rt; found, Some(("E-TYPE", start, start.saturating_add(10))));
    Ok(())
}
