// The tree of a text, with the place of each of its parts.

use crate::outside::{HELLO, program};
use enc_ast::{
    ActiveDecl, Decl, Expr, ExprForm, Fail as Refusal, Operator, Param, Reject, Rule, SourceForm,
    Span, StmtForm, TypeForm,
};
use enc_model::thin;
use enc_parse::parse;
use std::alloc::Global;
use std::process::Abort;
use std::test::Fail;

fn span(start: u32, end: u32) -> Span {
    Span { start, end }
}

#[test]
fn programs_have_a_class(rt: HostRuntime) -> Result<(), Fail> {
    let tree = parse(rt.alloc(), HELLO.as_bytes())?;
    assert!(rt; thin(&tree));
    assert_eq!(rt; tree.span, span(0, 69));
    let [Decl::Active(class)] = tree.decls.as_slice() else {
        panic!(rt; "one class")
    };
    check_class(&rt, class);
    Ok(())
}

fn check_class(rt: &impl Abort, class: &ActiveDecl) {
    assert_eq!(rt; class.span, span(0, 69));
    assert_eq!(rt; class.name.word.as_str(), "Main");
    assert_eq!(rt; class.name.span, span(13, 17));
    assert!(rt; class.fields.is_empty());
    assert_eq!(rt; class.methods.len(), 1);
}

#[test]
fn classes_have_a_method(rt: HostRuntime) -> Result<(), Fail> {
    let tree = parse(rt.alloc(), HELLO.as_bytes())?;
    let Some(Decl::Active(class)) = tree.decls.get(0) else {
        panic!(rt; "a class")
    };
    let Some(method) = class.methods.get(0) else {
        panic!(rt; "a method")
    };
    assert_eq!(rt; method.span, span(20, 67));
    assert_eq!(rt; method.name.word.as_str(), "main");
    assert_eq!(rt; method.name.span, span(24, 28));
    assert!(rt; matches!(method.result.form, TypeForm::Unit));
    assert_eq!(rt; method.result.span, span(47, 51));
    assert_eq!(rt; method.body.len(), 1);
    let [param] = method.params.as_slice() else {
        panic!(rt; "one parameter")
    };
    check_param(&rt, param);
    Ok(())
}

fn check_param(rt: &impl Abort, param: &Param) {
    assert_eq!(rt; param.name.word.as_str(), "args");
    assert_eq!(rt; param.name.span, span(29, 33));
    assert_eq!(rt; param.span, span(29, 44));
    assert_eq!(rt; param.ty.span, span(35, 44));
    let TypeForm::List(item) = &param.ty.form else {
        panic!(rt; "a list")
    };
    assert!(rt; matches!(item.get().form, TypeForm::Int));
    assert_eq!(rt; item.get().span, span(40, 43));
}

#[test]
fn statements_have_places(rt: HostRuntime) -> Result<(), Fail> {
    let alloc = rt.alloc();
    let text = program(alloc, "let a = 1 + 2; print a, \"x\";")?;
    let tree = parse(alloc, text.as_bytes())?;
    let [first, second] = tree.body() else {
        panic!(rt; "two statements")
    };
    assert_eq!(rt; first.span, span(54, 68));
    assert_eq!(rt; second.span, span(69, 82));
    Ok(())
}

#[test]
fn variables_are_bound(rt: HostRuntime) -> Result<(), Fail> {
    let alloc = rt.alloc();
    let text = program(alloc, "let a = 1 + 2;")?;
    let tree = parse(alloc, text.as_bytes())?;
    let [line] = tree.body() else {
        panic!(rt; "one statement")
    };
    let StmtForm::Let(name, source) = &line.form else {
        panic!(rt; "a new variable")
    };
    assert_eq!(rt; name.word.as_str(), "a");
    assert_eq!(rt; name.span, span(58, 59));
    assert_eq!(rt; source.span, span(62, 67));
    let SourceForm::Expr(sum) = &source.form else {
        panic!(rt; "an expression")
    };
    check_sum(&rt, sum);
    Ok(())
}

fn check_sum(rt: &impl Abort, sum: &Expr) {
    assert_eq!(rt; sum.span, span(62, 67));
    let ExprForm::Binary(operator, left, right) = &sum.form else {
        panic!(rt; "two operands")
    };
    assert_eq!(rt; *operator, Operator::Add);
    assert!(rt; matches!(left.get().form, ExprForm::Int(1)));
    assert_eq!(rt; left.get().span, span(62, 63));
    assert!(rt; matches!(right.get().form, ExprForm::Int(2)));
    assert_eq!(rt; right.get().span, span(66, 67));
}

#[test]
fn items_are_printed(rt: HostRuntime) -> Result<(), Fail> {
    let alloc = rt.alloc();
    let text = program(alloc, "let a = 1; print a, \"x\\n\";")?;
    let tree = parse(alloc, text.as_bytes())?;
    let [_, line] = tree.body() else {
        panic!(rt; "two statements")
    };
    let StmtForm::Print(items) = &line.form else {
        panic!(rt; "items")
    };
    let [name, quoted] = items.as_slice() else {
        panic!(rt; "two items")
    };
    assert!(rt; matches!(&name.form, ExprForm::Name(word) if word.is("a")));
    assert_eq!(rt; name.span, span(71, 72));
    let ExprForm::Text(bytes) = &quoted.form else {
        panic!(rt; "a text")
    };
    assert_eq!(rt; bytes.as_slice(), b"x\n".as_slice());
    assert_eq!(rt; quoted.span, span(74, 79));
    Ok(())
}

/// Asserts that a text is refused by the rule, at these bytes.
fn check_refused(rt: &impl Abort, alloc: Global, text: &[u8], rule: Rule, span: Span) {
    let refusal = Refusal::Reject(Reject { rule, span });
    assert!(rt; matches!(parse(alloc, text), Err(found) if found == refusal));
}

#[test]
fn texts_can_be_refused(rt: HostRuntime) -> Result<(), Fail> {
    let alloc = rt.alloc();
    check_refused(&rt, alloc, b"x y", Rule::Form, span(0, 1));
    check_refused(&rt, alloc, b"class C ", Rule::Form, span(8, 8));
    check_refused(&rt, alloc, b"class \"a", Rule::Token, span(6, 7));
    let longer = vec![in alloc; b' '; 1_048_577]?;
    check_refused(&rt, alloc, &longer, Rule::Size, span(0, 0));
    Ok(())
}

#[test]
fn programs_can_be_empty(rt: HostRuntime) -> Result<(), Fail> {
    let tree = parse(rt.alloc(), b" // nothing")?;
    assert!(rt; tree.decls.is_empty());
    assert!(rt; !thin(&tree));
    assert_eq!(rt; tree.span, span(0, 11));
    Ok(())
}

#[test]
fn classes_have_groups(rt: HostRuntime) -> Result<(), Fail> {
    let tree = parse(rt.alloc(), b"class C = (A or B) and D;")?;
    let [Decl::Class(class)] = tree.decls.as_slice() else {
        panic!(rt; "a class")
    };
    assert_eq!(rt; class.span, span(0, 25));
    let [pair, single] = class.groups.as_slice() else {
        panic!(rt; "two groups")
    };
    assert_eq!(rt; pair.span, span(10, 18));
    assert_eq!(rt; pair.names.len(), 2);
    assert_eq!(rt; single.span, span(23, 24));
    assert!(rt; matches!(single.names.get(0), Some(name) if name.word.is("D")));
    Ok(())
}
