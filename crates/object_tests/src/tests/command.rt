//! The top call over streams in memory that fail.

use super::{failing, made};
use outside::{Bytes, Fails, File, Files, MemShelf, MemSink, MemSource, Words};
use pipeline::decompile_words;
use std::alloc::Global;
use std::process::Abort;

const LISTING: &[u8] = b"pcode 1
space ram ram 8 le
space register register 4 le
space unique unique 4 le
proto c args result none pop 0x0 keep
func f ram:0x1000 c
at 0x1000 1
  RETURN register:0x288:8
end
";

const ITS_C: &[u8] = b"void f_f(u64 in_register_288)
{
  return;
}
";

/// Of the generated listing with the number 0.
const ITS_NUMBERS: &[u8] = b"ops 2250
blocks 457
atoms 18
gotos 248
bytes 255821
";

/// The number of a call that isn't made.
const NEVER: u32 = 9999;

/// What the objects of a call hold in the end.
#[derive(Drop)]
struct Ended {
    status: u8,
    out: Bytes,
    err: Bytes,
}

fn bytes(rt: &impl Abort, alloc: Global, list: &[u8]) -> Bytes {
    made(rt, Bytes::copy_of(alloc, list))
}

fn sink(rt: &impl Abort, alloc: Global, room: u32, write: u32) -> MemSink {
    made(rt, MemSink::new(alloc, room, failing(rt, alloc, write)))
}

/// A shelf with the one file `a.txt`.
fn shelf(rt: &impl Abort, alloc: Global) -> MemShelf {
    let mut files = Files::new(alloc);
    let file = File {
        name: made(rt, String::from_str(alloc, "a.txt")),
        bytes: bytes(rt, alloc, LISTING),
    };
    made(rt, files.push(file));
    MemShelf::new(files, Fails::new(alloc))
}

/// Runs the command.
fn told(
    rt: &impl Abort,
    alloc: Global,
    words: &Words,
    mut input: MemSource,
    mut out: MemSink,
    mut err: MemSink,
) -> Ended {
    let mut shelf = shelf(rt, alloc);
    let status = decompile_words(alloc, words, &mut input, &mut shelf, &mut out, &mut err);
    Ended {
        status,
        out: bytes(rt, alloc, out.taken()),
        err: bytes(rt, alloc, err.taken()),
    }
}

/// A comment of so many bytes, its line feed left away, and then the listing.
fn after_a_comment(rt: &impl Abort, alloc: Global, length: usize) -> Bytes {
    let filler = made(rt, vec![in alloc; b'#'; length]);
    let mut text = made(rt, Bytes::copy_of(alloc, &filler));
    made(rt, text.append(b"\n"));
    made(rt, text.append(LISTING));
    text
}

/// The greatest number of bytes of an input.
const MOST: usize = 4_194_304;

// The bytes of a comment, the read that fails, and what comes of it. Reads are of at most 4,096 bytes: of a comment of so
// many the first is all comment, the third finds the end, and a fourth isn't made.
#[test]
fn a_read_that_fails_and_an_input_too_long_are_told(rt: HostRuntime) {
    let alloc = rt.alloc();
    let words = Words::new(alloc);
    let rest = LISTING.len() + 1;
    let fault: &[u8] = b"pcode2c: read fault\n";
    let rows: [(usize, u32, u8, &[u8], &[u8]); 6] = [
        (4096, 0, 3, b"", fault),
        (4096, 1, 3, b"", fault),
        (4096, 2, 3, b"", fault),
        (4096, 3, 0, ITS_C, b""),
        (MOST - rest, NEVER, 0, ITS_C, b""),
        (MOST - rest + 1, NEVER, 6, b"", b"pcode2c: input too long\n"),
    ];
    for (length, read, status, out, err) in rows {
        let text = after_a_comment(&rt, alloc, length);
        let input = MemSource::new(text, failing(&rt, alloc, read));
        let room = sink(&rt, alloc, 99, NEVER);
        let ended = told(&rt, alloc, &words, input, room, sink(&rt, alloc, 99, NEVER));
        assert_eq!(rt; ended.status, status, "{length} bytes, read {read}");
        assert!(rt; ended.out.as_slice() == out, "{length} bytes, read {read}");
        assert!(rt; ended.err.as_slice() == err, "{length} bytes, read {read}");
    }
}

/// A call, and what it writes where there is room.
struct Row {
    words: &'static [&'static str],
    text: &'static [u8],
    /// The read and the write that fail.
    read: u32,
    write: u32,
    status: u8,
    out: &'static [u8],
    err: &'static [u8],
}

const ROWS: [Row; 13] = [
    Row {
        words: &[],
        text: LISTING,
        read: NEVER,
        write: NEVER,
        status: 0,
        out: ITS_C,
        err: b"",
    },
    Row {
        words: &[],
        text: LISTING,
        read: NEVER,
        write: 0,
        status: 4,
        out: b"",
        err: b"",
    },
    Row {
        words: &["a.txt"],
        text: b"",
        read: NEVER,
        write: NEVER,
        status: 0,
        out: ITS_C,
        err: b"",
    },
    Row {
        words: &["b.txt"],
        text: LISTING,
        read: NEVER,
        write: NEVER,
        status: 3,
        out: b"",
        err: b"pcode2c: read fault\n",
    },
    Row {
        words: &["--stage", "plain", "-"],
        text: LISTING,
        read: NEVER,
        write: NEVER,
        status: 0,
        out: ITS_C,
        err: b"",
    },
    Row {
        words: &["a.txt", "--stage=listing"],
        text: b"",
        read: NEVER,
        write: NEVER,
        status: 0,
        out: LISTING,
        err: b"",
    },
    Row {
        words: &["--stage", "x"],
        text: LISTING,
        read: NEVER,
        write: NEVER,
        status: 2,
        out: b"",
        err: b"pcode2c: bad arguments\n",
    },
    Row {
        words: &["--gen", "1", "a.txt"],
        text: LISTING,
        read: NEVER,
        write: NEVER,
        status: 2,
        out: b"",
        err: b"pcode2c: bad arguments\n",
    },
    Row {
        words: &["--gen", "0"],
        text: LISTING,
        read: 0,
        write: NEVER,
        status: 0,
        out: ITS_NUMBERS,
        err: b"",
    },
    Row {
        words: &["--gen=0000000000"],
        text: b"",
        read: NEVER,
        write: 0,
        status: 4,
        out: b"",
        err: b"",
    },
    Row {
        words: &["--gen", "4294967296"],
        text: LISTING,
        read: NEVER,
        write: NEVER,
        status: 2,
        out: b"",
        err: b"pcode2c: bad arguments\n",
    },
    Row {
        words: &[],
        text: LISTING,
        read: 0,
        write: NEVER,
        status: 3,
        out: b"",
        err: b"pcode2c: read fault\n",
    },
    Row {
        words: &[],
        text: b"pcode 1\n",
        read: NEVER,
        write: NEVER,
        status: 1,
        out: b"",
        err: b"pcode2c: line 2: syntax\n",
    },
];

fn words_of(rt: &impl Abort, alloc: Global, list: &[&str]) -> Words {
    let mut words = Words::new(alloc);
    for word in list {
        made(rt, words.push(made(rt, String::from_str(alloc, *word))));
    }
    words
}

// A text is written by one call, up to the room where there is less.
#[test]
fn a_write_that_fails_is_told(rt: HostRuntime) {
    let alloc = rt.alloc();
    for row in &ROWS {
        let words = words_of(&rt, alloc, row.words);
        for room in [0, 1, 22, 23, 54, 55, 56, 200, 220, 230u32] {
            let input = MemSource::new(bytes(&rt, alloc, row.text), failing(&rt, alloc, row.read));
            let out = sink(&rt, alloc, room, row.write);
            let ended = told(
                &rt,
                alloc,
                &words,
                input,
                out,
                sink(&rt, alloc, room, row.write),
            );
            let out = row.out.len().min(room as usize);
            let err = row.err.len().min(room as usize);
            let fits = out == row.out.len() && err == row.err.len();
            assert_eq!(rt;
                ended.status,
                if fits { row.status } else { 4 },
                "room {room}"
            );
            assert!(rt; ended.out.as_slice() == &row.out[..out], "room {room}");
            assert!(rt; ended.err.as_slice() == &row.err[..err], "room {room}");
        }
    }
}
