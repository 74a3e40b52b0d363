// Examples of frames and of lines.
use frames::calls::Call;
use frames::faults::FrameFault;
use lines::{LIMIT, Lines, read_start};
use std::io::repeat;

#[test]
fn reads(rt: HostRuntime) {
    assert_eq!(rt;
        Call::read(b"03010032003D"),
        Ok(Call::Window {
            stop: 1,
            low: 50,
            high: 61,
        })
    );
    assert_eq!(rt; Call::read(b"01007G"), Err(FrameFault::Malformed));
    assert_eq!(rt; Call::read(b""), Err(FrameFault::Malformed));
    assert_eq!(rt; Call::read(b"7F"), Err(FrameFault::UnknownKind));
    assert_eq!(rt; Call::read(b"0100"), Err(FrameFault::WrongLength));
}

#[test]
fn writes(rt: HostRuntime) {
    let mut place = [b'.'; 64];
    let count = Call::AddLeg {
        q: 1,
        t: 60,
        r: -1,
        lo: 50,
        hi: 70,
    }
    .write(&mut place);
    assert_eq!(rt; count, 26);
    assert!(rt; &place[0..28] == b"110001003CFFFFFFFF00320046..".as_slice());
}

#[test]
fn splits(rt: HostRuntime) {
    let mut lines = Lines::new(b"06\n\n0401");
    assert!(rt; lines.next() == Some(b"06"));
    assert!(rt; lines.next() == Some(b""));
    assert!(rt; lines.next() == Some(b"0401"));
    assert!(rt; lines.next() == None);
}

#[test]
fn reads_the_first_characters(rt: HostRuntime) {
    let short = read_start(rt.alloc(), b"06\n0401".as_slice());
    assert!(rt; short.is_ok_and(|text| text.as_slice() == b"06\n0401".as_slice()));
    let long = read_start(rt.alloc(), repeat(b'0'));
    assert!(rt; long.is_ok_and(|text| text.len() == LIMIT));
}
