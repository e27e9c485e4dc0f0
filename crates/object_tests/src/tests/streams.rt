//! The sources, sinks and shelves in memory.

use super::{failing, made};
use outside::{
    Bytes, File, Files, MemShelf, MemSink, MemSource, ReadEnd, Shelf, read_all, write_all,
};
use std::alloc::Global;
use std::process::Abort;

// `length` bytes, which count up.
fn counting(rt: &impl Abort, alloc: Global, length: u32) -> Bytes {
    let mut bytes = Bytes::new(alloc);
    for i in 0..length {
        made(rt, bytes.push((i % 251) as u8));
    }
    bytes
}

// How many bytes there are, the limit, the read that fails, the end, and how many bytes are left. Reads are of at most
// 4,096 bytes: the fourth of 8,197 finds the end.
#[test]
fn read_all_ends_by_the_limit_or_a_fault(rt: HostRuntime) {
    let alloc = rt.alloc();
    let long = Some(ReadEnd::TooLong);
    let fault = Some(ReadEnd::Fault);
    for (length, limit, number, end, left) in [
        (0, 0, 99, None, 0),
        (1, 0, 99, long, 0),
        (2, 3, 99, None, 0),
        (3, 3, 99, None, 0),
        (4, 3, 99, long, 0),
        (9, 3, 99, long, 5),
        (8197, 8197, 4, None, 0),
        (8197, 8196, 99, long, 0),
        (8197, 10_000, 0, fault, 8197),
        (8197, 10_000, 1, fault, 4101),
        (8197, 10_000, 2, fault, 5),
        (8197, 10_000, 3, fault, 0),
    ] {
        let bytes = counting(&rt, alloc, length);
        let mut src = MemSource::new(bytes, failing(&rt, alloc, number));
        let came = read_all(alloc, &mut src, limit);
        assert_eq!(rt;
            src.left().len(),
            left,
            "{length} within {limit}, read {number}"
        );
        match came {
            Ok(bytes) => {
                assert!(rt; end.is_none(), "{length} within {limit}");
                let wanted = counting(&rt, alloc, length);
                assert!(rt; bytes.as_slice() == wanted.as_slice());
            }
            Err(why) => assert_eq!(rt; Some(why), end, "{length} within {limit}"),
        }
    }
}

// The room, the write that fails, how many of the pieces fail, and what was taken.
#[test]
fn write_all_ends_where_a_write_fails_or_no_room_is_left(rt: HostRuntime) {
    let alloc = rt.alloc();
    for (room, number, fail, taken) in [
        (6, 0, 1, "cdef"),
        (6, 1, 1, "abef"),
        (6, 2, 1, "abcd"),
        (6, 3, 0, "abcdef"),
        (5, 99, 1, "abcde"),
        (4, 99, 1, "abcd"),
        (1, 99, 3, "a"),
        (0, 99, 3, ""),
    ] {
        let mut out = made(&rt, MemSink::new(alloc, room, failing(&rt, alloc, number)));
        let mut failed = 0u32;
        for piece in ["ab", "cd", "ef"] {
            if write_all(&mut out, piece.as_bytes()).is_err() && failed < 3 {
                failed += 1;
            }
        }
        assert_eq!(rt; failed, fail, "room {room}, write {number}");
        assert!(rt;
            out.taken() == taken.as_bytes(),
            "room {room}, write {number}"
        );
        assert!(rt;
            write_all(&mut out, b"").is_ok(),
            "room {room}, write {number}"
        );
    }
}

fn file(rt: &impl Abort, alloc: Global, name: &str, bytes: &[u8]) -> File {
    File {
        name: made(rt, String::from_str(alloc, name)),
        bytes: made(rt, Bytes::copy_of(alloc, bytes)),
    }
}

#[test]
fn a_shelf_reads_the_file_that_is_selected(rt: HostRuntime) {
    let alloc = rt.alloc();
    let mut files = Files::new(alloc);
    for (name, bytes) in [("a", "first"), ("b", "second"), ("a", "third")] {
        made(&rt, files.push(file(&rt, alloc, name, bytes.as_bytes())));
    }
    // The calls are: read, select, select, read, read, select.
    let mut shelf = MemShelf::new(files, failing(&rt, alloc, 5));
    let before = read_all(alloc, &mut shelf, 9).expect(&rt, "before");
    assert!(rt; before.as_slice().is_empty());
    assert!(rt; shelf.select("c").is_err());
    assert!(rt; shelf.select("a").is_ok());
    let first = read_all(alloc, &mut shelf, 9).expect(&rt, "first");
    assert!(rt; first.as_slice() == b"first".as_slice());
    assert!(rt; shelf.select("b").is_err(), "call 5 is to fail");
    assert!(rt; shelf.select("b").is_ok());
    assert!(rt; shelf.left() == b"second".as_slice());
}
