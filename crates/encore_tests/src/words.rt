// Words, and places in a text.

use enc_ast::{Word, is_keyword, place};
use std::process::Abort;
use std::test::Fail;

#[test]
fn words_are_compared(rt: HostRuntime) -> Result<(), Fail> {
    let word = Word::copy_of(rt.alloc(), "grün")?;
    assert!(rt; word.is("grün"));
    assert!(rt; !word.is("grun"));
    assert!(rt; !word.is("grün "));
    assert!(rt; !word.is(""));
    Ok(())
}

#[test]
fn words_are_copied(rt: HostRuntime) -> Result<(), Fail> {
    let word = Word::copy_of(rt.alloc(), "grün")?;
    let copy = word.copy()?;
    assert_eq!(rt; copy.as_str(), "grün");
    assert_eq!(rt; copy.len(), 5);
    assert!(rt; !copy.is_empty());
    assert_eq!(rt; word.into_string().as_str(), "grün");
    Ok(())
}

#[test]
fn words_can_be_empty(rt: HostRuntime) {
    let empty = Word::from_string(String::new(rt.alloc()));
    assert!(rt; empty.is_empty());
    assert_eq!(rt; empty.len(), 0);
    assert!(rt; empty.is(""));
}

#[test]
fn keywords_are_told(rt: HostRuntime) {
    assert!(rt; is_keyword("while"));
    assert!(rt; is_keyword("active"));
    assert!(rt; is_keyword("with"));
    assert!(rt; !is_keyword("whole"));
    assert!(rt; !is_keyword("While"));
    assert!(rt; !is_keyword(""));
}

/// Asserts where a byte of a text of two lines stands.
fn check_place(rt: &impl Abort, at: u32, line: u32, column: u32) {
    let text = b"ab\n\xc3\xbc\n";
    assert_eq!(rt; place(text, at), (line, column), "at {at}");
}

#[test]
fn bytes_have_places(rt: HostRuntime) {
    check_place(&rt, 0, 1, 1);
    check_place(&rt, 1, 1, 2);
    check_place(&rt, 2, 1, 3);
    check_place(&rt, 3, 2, 1);
    check_place(&rt, 4, 2, 2);
    check_place(&rt, 5, 2, 3);
    check_place(&rt, 6, 3, 1);
    check_place(&rt, 99, 3, 1);
}

#[test]
fn other_texts_have_places(rt: HostRuntime) {
    assert_eq!(rt; place(b"", 0), (1, 1));
    assert_eq!(rt; place(b"\r\nx", 2), (2, 1));
}
