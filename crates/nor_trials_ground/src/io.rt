//! Fields, shelves and sinks, in memory and of the system.
use nor_io::{
    FsShelf, LoadError, MAX_FILE, MemShelf, MemSink, SaveError, Shelf, Sink, SinkError, StdSink,
    field_u16, field_u32,
};
use std::alloc::{AllocError, Global};
use std::fs::OpenFile;
use std::io::Write;
use std::process::Abort;
use std::rt::Files;
use std::test::Fail;
use std::{env, fs, io};

#[test]
fn reads_little_endian_fields(rt: HostRuntime) {
    let bytes = [0x01, 0x80, 0xff, 0x00, 0x7f];
    for (at, short, long) in [
        (0, Some(0x8001), Some(0x00ff_8001)),
        (1, Some(0xff80), Some(0x7f00_ff80)),
        (3, Some(0x7f00), None),
        (4, None, None),
        (usize::MAX, None, None),
    ] {
        assert_eq!(rt; field_u16(&bytes, at), short, "two bytes at {at}");
        assert_eq!(rt; field_u32(&bytes, at), long, "four bytes at {at}");
    }
}

// A call of a shelf, with what it should answer.
#[derive(Clone, Copy)]
enum Step<'a> {
    Holds(&'a str, &'a [u8]),
    Lacks(&'a str, LoadError),
    Saves(&'a str, &'a [u8]),
    Loses(&'a str, &'a [u8]),
}

fn answers<S: Shelf>(rt: &impl Abort, alloc: Global, shelf: &mut S, step: Step) {
    match step {
        Step::Holds(name, bytes) => {
            let loaded = shelf.load(alloc, name);
            assert!(rt;
                loaded.is_ok_and(|loaded| loaded.as_slice() == bytes),
                "{name}"
            );
        }
        Step::Lacks(name, error) => {
            assert_eq!(rt; shelf.load(alloc, name).err(), Some(error), "{name}");
        }
        Step::Saves(name, bytes) => assert_eq!(rt; shelf.save(name, bytes), Ok(()), "{name}"),
        Step::Loses(name, bytes) => {
            assert_eq!(rt;
                shelf.save(name, bytes),
                Err(SaveError::WriteFault),
                "{name}"
            );
        }
    }
}

// Calls 2, 4 and 7 fail, and change nothing.
const IN_MEMORY: [Step; 11] = [
    Step::Holds("a", b"new"),
    Step::Holds("b", b""),
    Step::Lacks("a", LoadError::ReadFault),
    Step::Saves("a", b"saved"),
    Step::Loses("a", b"lost"),
    Step::Holds("a", b"saved"),
    Step::Lacks("c", LoadError::Absent),
    Step::Lacks("c", LoadError::ReadFault),
    Step::Saves("c", b"made"),
    Step::Holds("c", b"made"),
    Step::Holds("b", b""),
];

#[test]
fn holds_loads_and_saves_in_memory(rt: HostRuntime) -> Result<(), Fail> {
    let mut shelf = MemShelf::new(rt.alloc(), &[2, 4, 7])?;
    shelf.hold("a", b"old")?;
    shelf.hold("b", b"")?;
    shelf.hold("a", b"new")?;
    for step in IN_MEMORY {
        answers(&rt, rt.alloc(), &mut shelf, step);
    }
    assert_eq!(rt; shelf.faults(), 3);
    Ok(())
}

#[test]
fn takes_bytes_in_memory(rt: HostRuntime) -> Result<(), Fail> {
    let mut sink = MemSink::new(rt.alloc(), &[0, 3])?;
    for (piece, answer, taken, faults) in [
        ("ab", Err(SinkError::Fault), "", 1),
        ("ab", Ok(()), "ab", 1),
        ("", Ok(()), "ab", 1),
        ("cd", Err(SinkError::Fault), "ab", 2),
        ("ef\n", Ok(()), "abef\n", 2),
    ] {
        assert_eq!(rt; sink.put(piece.as_bytes()), answer);
        assert!(rt; sink.taken() == taken.as_bytes(), "after {piece}");
        assert_eq!(rt; sink.faults(), faults);
    }
    Ok(())
}

fn beside(alloc: Global, path: &str, name: &str) -> Result<String, AllocError> {
    let mut beside = String::new(alloc);
    beside.push_str(path)?;
    beside.push_str(name)?;
    Ok(beside)
}

// A file is replaced whole, a folder neither read nor replaced, and nothing is left beside them.
fn files_are_replaced<'a>(
    rt: &(impl Abort + Files + AllocGlobal),
    folder: &'a str,
    path: &'a str,
    long: &'a [u8],
    short: &'a [u8],
) -> Result<(), Fail> {
    let mut shelf = FsShelf::new(rt);
    for step in [
        Step::Lacks(path, LoadError::Absent),
        Step::Saves(path, long),
        Step::Holds(path, long),
        Step::Saves(path, short),
        Step::Holds(path, short),
        Step::Lacks(folder, LoadError::ReadFault),
        Step::Loses(folder, short),
    ] {
        answers(rt, rt.alloc(), &mut shelf, step);
    }
    assert_eq!(rt; shelf.faults(), 2);
    for name in [path, folder] {
        let new = beside(rt.alloc(), name, ".new")?;
        assert!(rt; !fs::exists(rt, new.as_str())?, "a new file is left");
    }
    Ok(())
}

#[test]
fn saves_and_loads_files(rt: HostRuntime) -> Result<(), Fail> {
    let alloc = rt.alloc();
    let temporary = env::temp_dir(&rt)?;
    let number = std::process::id(rt.process());
    let folder = format!(in alloc; "{}/nor_io-{number}", temporary.as_str())?;
    let path = beside(alloc, folder.as_str(), "/bank.img")?;
    fs::create_dir(&rt, folder.as_str())?;
    let long = vec![in alloc; 0xa5; 1_000_000]?;
    files_are_replaced(
        &rt,
        folder.as_str(),
        path.as_str(),
        long.as_slice(),
        b"short",
    )?;
    fs::create(&rt, path.as_str())?.set_len(MAX_FILE as u64 + 1)?;
    let too_large = Step::Lacks(path.as_str(), LoadError::TooLarge);
    answers(&rt, alloc, &mut FsShelf::new(&rt), too_large);
    fs::remove_file(&rt, path.as_str())?;
    fs::remove_dir(&rt, folder.as_str())?;
    Ok(())
}

// A writer that takes at most two bytes at a time, and nothing once it is full.
#[derive(Drop)]
struct Narrow<'a> {
    taken: &'a mut Vec<u8>,
    room: usize,
}

impl Write for Narrow<'_> {
    fn write(&mut self, buf: &[u8]) -> io::Result<usize> {
        let count = buf.len().min(self.room).min(2);
        self.taken.extend_from_slice(&buf[..count])?;
        self.room -= count;
        Ok(count)
    }

    fn flush(&mut self) -> io::Result<()> {
        Ok(())
    }
}

#[test]
fn writes_whole_pieces_or_counts_a_fault(rt: HostRuntime) -> Result<(), Fail> {
    let mut taken = Vec::new(rt.alloc());
    let mut sink = StdSink::new(Narrow {
        taken: &mut taken,
        room: 8,
    });
    assert_eq!(rt; sink.put(b"01234"), Ok(()));
    assert_eq!(rt; sink.put(b""), Ok(()));
    assert_eq!(rt; sink.faults(), 0);
    assert_eq!(rt; sink.put(b"56789"), Err(SinkError::Fault));
    assert_eq!(rt; sink.put(b"x"), Err(SinkError::Fault));
    assert_eq!(rt; sink.faults(), 2);
    drop(sink);
    assert!(rt;
        taken.as_slice() == b"01234567".as_slice(),
        "what was taken"
    );

    let mut sink = StdSink::new(io::writer(&rt));
    assert_eq!(rt; sink.put(b"taken by standard output\n"), Ok(()));
    Ok(())
}
