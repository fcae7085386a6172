// Bytes that no word may have, and lines that are too long.
use crate::read::{BLANK, FORM, Read, read};
use std::test::*;

// The first byte that no word may have, before any word is looked at.
const FOREIGN: &[(&[u8], Read)] = &[
    (b"\x09(judge)", Err((3, 1))),
    (b"(judge)\x0d", Err((3, 8))),
    (b"(judge)\x00", Err((3, 8))),
    (b"(judge\x00)", Err((3, 7))),
    (b"\x80", Err((3, 1))),
    (b"(judge)\xff", Err((3, 8))),
    (b"(Judge)", Err((3, 2))),
    (b"(judge)A", Err((3, 8))),
    (b"(judge).", Err((3, 8))),
    (b"(judge);", Err((3, 8))),
    (b"judge\x0a", Err((3, 6))),
    (b"(need 1.5)", Err((3, 8))),
    (b"(need +1)", Err((3, 7))),
    (b"(day 1 2) # x", Err((3, 11))),
    (b"x\x7f", Err((3, 2))),
    (b"[judge]", Err((3, 1))),
    (b"{", Err((3, 1))),
    (b"`", Err((3, 1))),
    (b"@", Err((3, 1))),
    (b"/", Err((3, 1))),
    (b":", Err((3, 1))),
    (b"*", Err((3, 1))),
    (b"(days 1 Z", Err((3, 9))),
    (b"\xc3\xa9", Err((3, 1))),
    (b"   \x09", Err((3, 4))),
];

#[test]
fn foreign(rt: HostRuntime) {
    for (line, wanted) in FOREIGN {
        assert_eq!(rt; read(line), *wanted, "at {line:?}");
    }
}

#[test]
fn lengths(rt: HostRuntime) {
    assert_eq!(rt; read(&[b' '; 1024]), BLANK);
    assert_eq!(rt; read(&[b' '; 1025]), Err((2, 1025)));
    assert_eq!(rt; read(&[b'x'; 1024]), Err((5, 1)));
    assert_eq!(rt; read(&[b'('; 1024]), Err((4, 2)));
    assert_eq!(rt; read(&[b'A'; 1024]), Err((3, 1)));
    assert_eq!(rt; read(&[b'A'; 1025]), Err((2, 1025)));
    assert_eq!(rt; read(&[0; 65_536]), Err((2, 1025)));
    let mut line = [b' '; 1024];
    line[1017..].copy_from_slice(b"(judge)");
    assert_eq!(rt; read(&line), FORM);
    line[1016] = b'(';
    assert_eq!(rt; read(&line), Err((4, 1018)));
    line[1016] = 0;
    assert_eq!(rt; read(&line), Err((3, 1017)));
}
