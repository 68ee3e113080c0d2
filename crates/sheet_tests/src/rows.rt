// A good sheet, and what its lines say.
use sheet::lines::{Line, Make};
use sheet::reader::Sheet;

#[test]
fn four_lines(rt: HostRuntime) {
    let mut sheet = Sheet::new(
        b"C         2         3         4         5         6\n\
T         0         5         7         scan\n\
M         1        30\n\
D9999999999\n",
    );
    assert!(rt; sheet.lines() == 0);
    assert!(rt;
        matches!(
            sheet.next(),
            Ok(Some(Line::Head {
                make: Make::Bostan,
                places: 3,
                banks: 4,
                latency: 5,
                period: 6
            }))
        )
    );
    assert!(rt;
        matches!(sheet.next(), Ok(Some(Line::Task { place: 0, cycles: 5, earliest: 7, name })) if name == b"scan".as_slice())
    );
    assert!(rt; matches!(sheet.next(), Ok(Some(Line::Demand { bank: 1, count: 30 }))));
    assert!(rt;
        matches!(
            sheet.next(),
            Ok(Some(Line::Dependency { row: 9_999_999_999 }))
        )
    );
    assert!(rt; sheet.lines() == 4);
    assert!(rt; matches!(sheet.next(), Ok(None)));
    assert!(rt; sheet.lines() == 4);
}
