// Listings compared byte for byte with texts written from the rules, and memory that is one byte short.
use crate::{Answer, Row, Short, list, size};

#[test]
fn lists_granted_dates(rt: HostRuntime) {
    let rows = [
        Row {
            release: 0,
            response: 10,
            name: b"scan",
        },
        Row {
            release: 0,
            response: 8,
            name: b"steam",
        },
        Row {
            release: 10,
            response: 3,
            name: b"filter",
        },
    ];
    let mut memory = [b'#'; 180];
    assert_eq!(rt;
        list(
            &mut memory,
            &Answer::Granted {
                rounds: 2,
                rows: &rows,
            },
        ),
        Ok(177)
    );
    assert_eq!(rt;
        &memory,
        b"G         2\n\
          R         0         0        10        10         scan\n\
          R         1         0         8         8        steam\n\
          R         2        10         3        13       filter\n###"
    );
}

#[test]
fn lists_a_late_plan(rt: HostRuntime) {
    let mut memory = [b'#'; 30];
    let answer = Answer::Late { row: 0, finish: 10 };
    assert_eq!(rt; list(&mut memory, &answer), Ok(28));
    assert_eq!(rt; &memory, b"L         0              10\n##");
}

#[test]
fn lists_a_fault(rt: HostRuntime) {
    let mut memory = [b'#'; 32];
    let answer = Answer::Fault {
        number: 3,
        line: 12,
        column: 32,
    };
    assert_eq!(rt; list(&mut memory, &answer), Ok(32));
    assert_eq!(rt; &memory, b"F         3        12        32\n");
}

#[test]
fn refuses_one_byte_less(rt: HostRuntime) {
    let answer = Answer::Late {
        row: 255,
        finish: 9_999_999_999_999_999,
    };
    assert_eq!(rt; size(&answer), Some(28));
    let mut memory = [b'#'; 27];
    assert_eq!(rt; list(&mut memory, &answer), Err(Short));
    assert_eq!(rt; &memory, &[b'#'; 27]);
    assert_eq!(rt; Short.number(), 11);
}
