use crate::{line_place, place_of};
use std::test::Fail;

// Places in "ab\n\ncd", each with its line, its column and the bounds of its line.
static PLACES: [(usize, usize, usize, usize, usize); 7] = [
    (0, 1, 1, 0, 2),
    (1, 1, 2, 0, 2),
    (2, 1, 3, 0, 2),
    (3, 2, 1, 3, 3),
    (4, 3, 1, 4, 6),
    (5, 3, 2, 4, 6),
    (6, 3, 3, 4, 6),
];

#[test]
fn lines_and_columns(rt: HostRuntime) -> Result<(), Fail> {
    for (byte, line, column, start, end) in PLACES {
        let place = place_of(b"ab\n\ncd", byte).ok_or("no place")?;
        assert_eq!(rt; place.line, line);
        assert_eq!(rt; place.column, column);
        assert_eq!(rt; place.start, start);
        assert_eq!(rt; place.end, end);
    }
    assert!(rt; place_of(b"ab\n\ncd", 7).is_none());
    Ok(())
}

#[test]
fn lines_by_number(rt: HostRuntime) -> Result<(), Fail> {
    assert!(rt; line_place(b"ab\n\ncd", 0).is_none());
    assert!(rt; line_place(b"ab\n\ncd", 4).is_none());
    let place = line_place(b"ab\n\ncd", 3).ok_or("no line")?;
    assert_eq!(rt; place.start, 4);
    assert_eq!(rt; place.end, 6);
    Ok(())
}
