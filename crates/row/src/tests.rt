use crate::{Full, Row};

#[test]
fn holds_as_many_as_fit(rt: HostRuntime) {
    let mut row: Row<u8, 3> = Row::new(0);
    assert_eq!(rt; row.push(5), Ok(()));
    assert_eq!(rt; row.push_reversed(&[6, 7, 8]), Err(Full));
    assert_eq!(rt; row.push_reversed(&[6, 7]), Ok(()));
    assert_eq!(rt; row.push(8), Err(Full));
    assert!(rt; row.as_slice() == [5, 7, 6].as_slice());
    assert_eq!(rt; row.pop(), Some(6));
    assert_eq!(rt; row.len(), 2);
    row.truncate(1);
    assert!(rt; row.as_slice() == [5].as_slice());
    row.clear();
    assert_eq!(rt; row.pop(), None);
}

#[test]
fn gives_a_place_to_the_last(rt: HostRuntime) {
    let Some(mut row) = Row::<u8, 4>::from_slice(&[1, 2, 3], 0) else {
        assert!(rt; false);
        return;
    };
    assert_eq!(rt; row.swap_remove(3), None);
    assert_eq!(rt; row.swap_remove(0), Some(1));
    assert!(rt; row.as_slice() == [3, 2].as_slice());
    assert!(rt; Row::<u8, 2>::from_slice(&[1, 2, 3], 0).is_none());
}
