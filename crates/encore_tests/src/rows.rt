// Lists of items, and what changes them.
ghost use Rattle.std.specs.Prelude.{◌≡◌, IfOk};

use enc_ast::Row;
use std::alloc::{AllocError, Global};
use std::test::Fail;

/// A row of these bytes.
fn row_of(alloc: Global, bytes: &[u8]) -> Result<Row<u8>, AllocError>
    ensures { IfOk result (λ row. row ≡ bytes.now) }
{
    let mut row = Row::new(alloc);
    row.extend(bytes)?;
    Ok(row)
}

#[test]
fn rows_can_be_empty(rt: HostRuntime) {
    let mut row: Row<u8> = Row::new(rt.alloc());
    assert!(rt; row.is_empty());
    assert_eq!(rt; row.len(), 0);
    assert_eq!(rt; row.pop(), None);
    assert_eq!(rt; row.pop_front(), None);
}

#[test]
fn rows_grow(rt: HostRuntime) -> Result<(), Fail> {
    let alloc = rt.alloc();
    let mut row = Row::new(alloc);
    row.push(b'a')?;
    row.extend(b"bc")?;
    row.append(Row::from_vec(vec![in alloc; b'd'; 2]?))?;
    assert_eq!(rt; row.as_slice(), b"abcdd".as_slice());
    assert_eq!(rt; row.len(), 5);
    assert!(rt; !row.is_empty());
    Ok(())
}

#[test]
fn rows_show_items(rt: HostRuntime) -> Result<(), Fail> {
    let row = row_of(rt.alloc(), b"abc")?;
    assert_eq!(rt; row.get(1), Some(&b'b'));
    assert_eq!(rt; row.get(3), None);
    assert_eq!(rt; row.last(), Some(&b'c'));
    assert!(rt; row.iter().rev().copied().eq(*b"cba"));
    assert_eq!(rt; row.into_vec().as_slice(), b"abc".as_slice());
    Ok(())
}

#[test]
fn rows_lose_items(rt: HostRuntime) -> Result<(), Fail> {
    let mut row = row_of(rt.alloc(), b"abcdef")?;
    assert_eq!(rt; row.pop(), Some(b'f'));
    assert_eq!(rt; row.pop_front(), Some(b'a'));
    assert_eq!(rt; row.as_slice(), b"bcde".as_slice());
    row.truncate(9);
    assert_eq!(rt; row.len(), 4);
    row.truncate(1);
    assert_eq!(rt; row.as_slice(), b"b".as_slice());
    Ok(())
}

#[test]
fn items_are_removed(rt: HostRuntime) -> Result<(), Fail> {
    let mut row = row_of(rt.alloc(), b"abc")?;
    assert_eq!(rt; row.len(), 3);
    assert_eq!(rt; row.remove(1), b'b');
    assert_eq!(rt; row.as_slice(), b"ac".as_slice());
    Ok(())
}

#[test]
fn items_are_replaced(rt: HostRuntime) -> Result<(), Fail> {
    let mut row = row_of(rt.alloc(), b"abc")?;
    assert_eq!(rt; row.len(), 3);
    assert_eq!(rt; row.replace(2, b'z'), b'c');
    assert_eq!(rt; row.len(), 3);
    row.set(1, b'y');
    assert_eq!(rt; row.as_slice(), b"ayz".as_slice());
    Ok(())
}

#[test]
fn items_are_lent(rt: HostRuntime) -> Result<(), Fail> {
    let mut row = row_of(rt.alloc(), b"abc")?;
    assert!(rt; row.get_mut(3).is_none());
    if let Some(item) = row.get_mut(0) {
        *item = b'x';
    }
    assert_eq!(rt; row.as_slice(), b"xbc".as_slice());
    Ok(())
}
