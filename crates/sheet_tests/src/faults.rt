// Good and bad sheets, and the number, line and column of the first fault.
use sheet::faults::Fault;
use sheet::reader::Sheet;

// Reads a sheet to its end, or to its first fault.
fn read_all(bytes: &[u8]) -> Result<(), Fault> {
    let mut sheet = Sheet::new(bytes);
    while sheet.next()?.is_some() {}
    Ok(())
}

fn has_fault(bytes: &[u8], number: u32, line: usize, column: usize) -> bool {
    read_all(bytes).is_err_and(|f| f.number() == number && f.line == line && f.column == column)
}

// Each of these sheets has its first fault in line 1, with this number and column.
fn all_refused(sheets: &[&[u8]], number: u32, column: usize) -> bool {
    sheets
        .iter()
        .all(|bytes| has_fault(bytes, number, 1, column))
}

#[test]
fn accepted_sheets(rt: HostRuntime) {
    let sheets: [&[u8]; 8] = [
        b"",
        b"D         0\n",
        b"D4294967296\n",
        b"D9999999999\n",
        b"C         1         2         1         1        20\n",
        b"C         2         2         1         1        20\n",
        b"T         0         5         0            a\n",
        b"T         0         5         0 !~!~!~!~!~!~\n",
    ];
    for bytes in sheets {
        assert!(rt; read_all(bytes).is_ok());
    }
}

#[test]
fn refused_lines(rt: HostRuntime) {
    let unknown_letter: [&[u8]; 4] = [b"\n", b"K         1\n", b"d         1\n", b" D         1\n"];
    let wrong_length: [&[u8]; 6] = [
        b"D         1",
        b"D         1 ",
        b"D         1\r\n",
        b"D\n",
        b"M         0\n",
        b"C         3         2         1         1        20",
    ];
    let unknown_make: [&[u8]; 3] = [
        b"C         0         2         1         1        20\n",
        b"C         3         2         1         1        20\n",
        b"C4294967297         2         1         1        20\n",
    ];
    assert!(rt; all_refused(&unknown_letter, 1, 1));
    assert!(rt; all_refused(&wrong_length, 2, 1));
    assert!(rt; all_refused(&unknown_make, 5, 1));
    assert!(rt; has_fault(b"D         1\n\n", 1, 2, 1));
    assert!(rt; has_fault(b"D         1\nD         2\nM         0", 2, 3, 1));
}

#[test]
fn refused_fields(rt: HostRuntime) {
    let number: [&[u8]; 12] = [
        b"D          \n",
        b"D        00\n",
        b"D        01\n",
        b"D0000000001\n",
        b"D\t        1\n",
        b"D        \t1\n",
        b"D        +1\n",
        b"D        -1\n",
        b"D        1 \n",
        b"D       1 2\n",
        b"D        1\r\n",
        b"M         x         x\n",
    ];
    let name: [&[u8]; 9] = [
        b"T         0         5         0             \n",
        b"T         0         5         0abcdefghijklm\n",
        b"T         0         5         0x           a\n",
        b"T         0         5         0          a b\n",
        b"T         0         5         0           a \n",
        b"T         0         5         0           \ta\n",
        b"T         0         5         0           a\x1f\n",
        b"T         0         5         0           \x7fa\n",
        b"T         0         5         0           \xc3\xa9\n",
    ];
    assert!(rt; all_refused(&number, 3, 2));
    assert!(rt; all_refused(&name, 3, 32));
    assert!(rt; has_fault(b"M         0         x\n", 3, 1, 12));
    assert!(rt; has_fault(b"T         0         5        0x          a b\n", 3, 1, 22));
    assert!(rt;
        has_fault(
            b"C         3         2         1         1        0x\n",
            3,
            1,
            42,
        )
    );
}
