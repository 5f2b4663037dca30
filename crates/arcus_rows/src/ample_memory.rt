//! Each call that can answer want of memory, once with ample memory.

use arc_core::{Executor, Expiry, Key, KeyRef, MemorySink, Push, Reply, Seq, Sink, Value, Word};
use cache_engine::{Cache, Settings};
use frame_reader::{Frames, Unit};
use kv_items::KvItem;
use line_grammar::{Command, KvHeads, read_line};
use std::alloc::Global;
use std::test::Fail;

#[test]
fn keys_and_values_are_copied(rt: HostRuntime) -> Result<(), Fail> {
    let read = KeyRef::read(b"k1")?;
    let key = Key::copy(rt.alloc(), read)?;
    assert_eq!(rt; key.bytes(), b"k1".as_slice());
    let value = Value::copy(rt.alloc(), b"ab")?;
    assert_eq!(rt; value.bytes(), b"ab".as_slice());
    let equal = value.share()?;
    assert_eq!(rt; equal.bytes(), b"ab".as_slice());
    let longer = value.joined(b"<", b">")?;
    assert_eq!(rt; longer.bytes(), b"<ab>".as_slice());
    let mut seq = Seq::with_capacity(rt.alloc(), 1)?;
    assert!(rt; seq.push(7_u8).is_ok());
    assert!(rt; seq.push(8).is_ok());
    assert_eq!(rt; seq.as_slice(), [7, 8].as_slice());
    Ok(())
}

#[test]
fn an_item_is_joined_to(rt: HostRuntime) -> Result<(), Fail> {
    let item = KvItem::new(rt.alloc(), 5, Expiry::Sticky, 1, b"a")?;
    assert_eq!(rt; item.value.bytes(), b"a".as_slice());
    let Ok(joined) = item.joined(b"", b"b", 2) else {
        panic!(rt; "not joined");
    };
    assert_eq!(rt; joined.value.bytes(), b"ab".as_slice());
    assert_eq!(rt; (joined.flags, joined.unique), (5, 2));
    Ok(())
}

// Executes the request of a line that asks for a block to be stored, with that block.
fn execute(cache: &mut Cache, line: &[u8], block: &[u8]) -> Option<Reply> {
    let Ok(head) = read_line(line) else {
        return None;
    };
    let Command::Store { len, .. } = head.command else {
        return None;
    };
    if len as usize != block.len() || len > 1_048_576 {
        return None;
    }
    let Ok(request) = head.with_block(block) else {
        return None;
    };
    Some(cache.execute(0, &request))
}

#[test]
fn a_request_is_executed(rt: HostRuntime) -> Result<(), Fail> {
    let settings = Settings::of_mib(1).ok_or("1 MiB is a limit")?;
    let mut cache = Cache::new(rt.alloc(), settings)?;
    assert_eq!(rt; cache.accounted(), 0);
    let reply = execute(&mut cache, b"set a 5 0 3", b"abc");
    assert!(rt; matches!(reply, Some(Reply::Word(Word::Stored))));
    assert_eq!(rt; cache.items(), 1);
    // 64 bytes for the item itself, 1 for the key and 3 for the value.
    assert_eq!(rt; cache.accounted(), 68);
    let reply = execute(&mut cache, b"append a 0 0 1", b"d");
    assert!(rt; matches!(reply, Some(Reply::Word(Word::Stored))));
    assert_eq!(rt; (cache.items(), cache.accounted()), (1, 69));
    Ok(())
}

// A block of 131,070 bytes fits into the buffer that is taken at first. A larger one has memory of its own.
#[test]
fn frames_take_blocks(rt: HostRuntime) -> Result<(), Fail> {
    let mut frames = Frames::new(rt.alloc(), KvHeads)?;
    assert_eq!(rt; frames.feed(b"get a\r\n"), 7);
    assert!(rt; matches!(frames.unit(), Unit::Line(b"get a")));
    for len in [131_070, 131_071, 1_048_576] {
        frames.fresh();
        let line = format!(in rt.alloc(); "set a 0 0 {len}\r\n")?;
        assert_eq!(rt; frames.feed(line.as_bytes()), line.len());
        let bytes = vec![in rt.alloc(); b'x'; len]?;
        assert_eq!(rt; frames.feed(&bytes), len);
        assert_eq!(rt; frames.feed(b"\r\nget a"), 2);
        let Unit::LineWithBlock { block, .. } = frames.unit() else {
            panic!(rt; "no block of {len} bytes");
        };
        assert!(rt; block == bytes.as_slice());
    }
    Ok(())
}

#[test]
fn a_sink_takes_bytes(rt: HostRuntime) -> Result<(), Fail> {
    let mut sink = MemorySink::new(rt.alloc(), 2, Vec::new(rt.alloc()));
    assert_eq!(rt; sink.push(b"END"), Push::Took(2));
    assert_eq!(rt; sink.bytes(), b"EN".as_slice());
    Ok(())
}
