//! The devices in memory, each call failing in turn, through their bounds.
use super::*;
use std::alloc::{AllocError, Global};
use std::test::Fail;

fn files(alloc: Global) -> Result<Files, AllocError> {
    one_file(alloc, "a", b"abc")
}

fn keep<T: Tray + Send>(tray: &mut T, name: &str, bytes: &[u8]) -> TrayEnd {
    tray.write(name, bytes)
}

fn pass<G: Gate + Sync>(gate: &G) {
    gate.at(1, 0);
}

// The answers of four polls.
fn polls<S: Stop>(stop: &mut S) -> [bool; 4] {
    [stop.poll(), stop.poll(), stop.poll(), stop.poll()]
}

#[test]
fn a_shelf_fails_at_the_listed_read(rt: HostRuntime) -> Result<(), Fail> {
    let alloc = rt.alloc();
    let reads = [
        (1, "a", 9, ReadEnd::Found, "abc"),
        (2, "b", 9, ReadEnd::Absent, ""),
        (3, "a", 1, ReadEnd::Found, "ab"),
    ];
    for failing in 0..4 {
        let listed = Vec::from_slice(alloc, &[failing])?;
        let mut shelf = MemShelf::new(alloc, files(alloc)?, listed);
        let mut into = Vec::from_slice(alloc, b"old")?;
        for (call, name, max, end, bytes) in reads {
            let (end, bytes) = if call == failing {
                (ReadEnd::Failed, "")
            } else {
                (end, bytes)
            };
            assert_eq!(rt; shelf.read(name, max, &mut into), end, "{failing} {call}");
            assert_eq!(rt; into.as_slice(), bytes.as_bytes(), "{failing} {call}");
        }
        let asked = shelf.asked();
        assert_eq!(rt; asked.len(), 3);
        assert_eq!(rt; asked[1].as_str(), "b");
    }
    Ok(())
}

#[test]
fn a_tray_fails_at_the_listed_write(rt: HostRuntime) -> Result<(), Fail> {
    let alloc = rt.alloc();
    for (failing, first, second) in [(0, "x", Some("yz")), (1, "abc", Some("yz")), (2, "x", None)] {
        let listed = Vec::from_slice(alloc, &[failing])?;
        let mut tray = MemTray::new(alloc, files(alloc)?, listed);
        for (call, name, bytes) in [(1, "a", "x"), (2, "b", "yz")] {
            let end = keep(&mut tray, name, bytes.as_bytes());
            let want = if call == failing {
                TrayEnd::Failed
            } else {
                TrayEnd::Kept
            };
            assert_eq!(rt; end, want, "{failing} {call}");
        }
        assert_eq!(rt; tray.file("a"), Some(first.as_bytes()), "{failing}");
        assert_eq!(rt; tray.file("b"), second.map(str::as_bytes), "{failing}");
    }
    Ok(())
}

#[test]
fn a_text_comes_whole_or_up_to_the_fault(rt: HostRuntime) -> Result<(), Fail> {
    let alloc = rt.alloc();
    let (all, failed) = (u64::MAX, Err(Unwritten::Failed));
    let rows = [
        (all, all, 0, Ok(()), "hello"),
        (1, all, 0, Ok(()), "hello"),
        (2, 5, 0, Ok(()), "hello"),
        (2, 3, 0, failed, "hel"),
        (2, all, 2, failed, "he"),
        (all, 0, 0, failed, ""),
        (all, all, 1, failed, ""),
    ];
    for (piece, room, failing, want, taken) in rows {
        let listed = Vec::from_slice(alloc, &[failing])?;
        let mut out = MemSink::new(Vec::new(alloc), listed).with_limits(piece, room);
        assert_eq!(rt;
            write_all(&mut out, b"hello"),
            want,
            "{piece} {room} {failing}"
        );
        assert_eq!(rt; out.bytes(), taken.as_bytes(), "{piece} {room} {failing}");
    }
    Ok(())
}

#[test]
fn a_file_is_read_up_to_the_limit(rt: HostRuntime) -> Result<(), Fail> {
    let alloc = rt.alloc();
    let mut shelf = SureShelf::new(alloc, files(alloc)?);
    for (name, max, want) in [
        ("a", 3, None),
        ("a", u64::MAX, None),
        ("a", 2, Some(Unread::TooLong)),
        ("b", 2, Some(Unread::Absent)),
    ] {
        match (read_file(alloc, &mut shelf, name, max), want) {
            (Ok(bytes), None) => assert_eq!(rt; bytes.as_slice(), b"abc".as_slice(), "{max}"),
            (Ok(_), Some(_)) => assert!(rt; false, "{name} {max}"),
            (Err(why), want) => assert_eq!(rt; Some(why), want, "{name} {max}"),
        }
    }
    assert_eq!(rt; shelf.asked().len(), 4);
    let listed = Vec::from_slice(alloc, &[1])?;
    let mut shelf = MemShelf::new(alloc, files(alloc)?, listed);
    let end = read_file(alloc, &mut shelf, "a", 3);
    assert_eq!(rt; end.err(), Some(Unread::Failed));
    Ok(())
}

#[test]
fn the_sure_devices_take_all(rt: HostRuntime) -> Result<(), Fail> {
    let alloc = rt.alloc();
    let mut tray = SureTray::new(alloc, files(alloc)?);
    assert_eq!(rt; keep(&mut tray, "b", b"yz"), TrayEnd::Kept);
    assert_eq!(rt; tray.file("a"), Some(b"abc".as_slice()));
    assert_eq!(rt; tray.file("b"), Some(b"yz".as_slice()));
    let mut out = SureSink::new(Vec::from_slice(alloc, b"say ")?);
    assert_eq!(rt; write_all(&mut out, b"hello"), Ok(()));
    assert_eq!(rt; out.bytes(), b"say hello".as_slice());
    pass(&Open);
    Ok(())
}

#[test]
fn stops_say_yes_from_their_poll_on(rt: HostRuntime) -> Result<(), Fail> {
    assert_eq!(rt; polls(&mut Never), [false; 4]);
    for (n, said) in [
        (0, [true; 4]),
        (1, [true; 4]),
        (3, [false, false, true, true]),
        (u64::MAX, [false; 4]),
    ] {
        assert_eq!(rt; polls(&mut After::new(n)), said, "{n}");
    }
    Ok(())
}
