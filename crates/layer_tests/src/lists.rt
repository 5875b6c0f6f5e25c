//! Lists that take items without asking for memory.

use byte_cursor::{ByteList, WordList};
use std::test::Fail;

#[test]
fn items_are_pushed_into_reserved_room(rt: HostRuntime) -> Result<(), Fail> {
    let mut words = WordList::new(rt.alloc());
    words.push(5)?;
    words.reserve(2)?;
    words.push_spare(6);
    words.push_spare(7);
    let mut more = WordList::new(rt.alloc());
    more.push(4)?;
    more.reserve(3)?;
    more.append_spare(words);
    assert_eq!(rt; more.as_slice(), [4u32, 5, 6, 7].as_slice());
    Ok(())
}

#[test]
fn bytes_are_appended_to_reserved_room(rt: HostRuntime) -> Result<(), Fail> {
    let mut bytes = ByteList::new(rt.alloc());
    bytes.reserve(1)?;
    bytes.push_spare(8);
    let mut more = ByteList::new(rt.alloc());
    more.reserve(1)?;
    more.append_spare(bytes);
    assert_eq!(rt; more.as_slice(), [8u8].as_slice());
    Ok(())
}
