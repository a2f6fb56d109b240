use lunit::{BadNumber, Lu, px_text};
use std::test::Fail;

/// A length with its text, and whether the text is what is printed.
struct Number {
    text: &'static [u8],
    units: i32,
    printed: bool,
}

#[test]
fn numbers_are_read_and_printed(rt: HostRuntime) -> Result<(), Fail> {
    static ROWS: &[Number] = &[
        Number {
            text: b"+1.50",
            units: 96,
            printed: false,
        },
        Number {
            text: b"-0.015625",
            units: -1,
            printed: true,
        },
        Number {
            text: b"0.0156249",
            units: 0,
            printed: false,
        },
        Number {
            text: b"33.328125",
            units: 2133,
            printed: true,
        },
        Number {
            text: b"-1048576",
            units: -67_108_864,
            printed: true,
        },
    ];
    for row in ROWS {
        let units = i64::from(row.units);
        assert_eq!(rt; Lu::read(row.text)?.units(), units);
        let mut room = [0; 32];
        let length = px_text(units, &mut room);
        assert_eq!(rt; &room[..length] == row.text, row.printed);
    }
    assert!(rt; Lu::read(b"-.") == Err(BadNumber));
    assert!(rt; Lu::read(b"1048576.00000001") == Err(BadNumber));
    Ok(())
}
