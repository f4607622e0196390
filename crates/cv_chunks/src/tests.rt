//! What no clause says: each call that takes memory can answer, and a list works at types that must be
//! dropped.
use crate::threads::lengths_by_threads;
use crate::{Buckets, Chunked, Growing, RowRange, Shared, total_length};
use std::alloc::Global;
use std::process::Abort;
use std::test::Fail;

/// The elements of a list, by `iter`, and one by one by `get`.
fn elements(rt: &impl Abort, alloc: Global, list: &Chunked<u32>) -> Result<Vec<u32>, Fail> {
    let elements = list.iter().copied().collect::<Vec<u32>>(alloc)?;
    assert_eq!(rt; elements.len() as u64, list.len());
    for (at, element) in elements.iter().enumerate() {
        assert_eq!(rt; list.get(at as u64), Some(element), "at {at}");
    }
    assert_eq!(rt; list.get(list.len()), None);
    Ok(elements)
}

/// An edit, by its place.
#[derive(Clone, Copy, Debug)]
enum Edit {
    Set(u64),
    Insert(u64),
    Remove(u64),
}

/// Does an edit to a list and to a plain vector.
fn do_edit(
    list: &mut Chunked<u32>,
    plain: &mut Vec<u32>,
    edit: Edit,
    value: u32,
) -> Result<(), Fail> {
    let count = list.len().min(plain.len() as u64);
    match edit {
        Edit::Set(at) if at < count => {
            list.set(at, value)?;
            plain[at as usize] = value;
        }
        Edit::Insert(at) if at <= count => {
            list.insert(at, value)?;
            plain.insert(at as usize, value)?;
        }
        Edit::Remove(at) if at < count => {
            list.remove(at)?;
            let _ = plain.remove(at as usize);
        }
        _ => return Err(Fail::from("no such place")),
    }
    Ok(())
}

#[test]
fn edits_are_those_of_a_plain_vector(rt: HostRuntime) -> Result<(), Fail> {
    let alloc = rt.alloc();
    let chunks = [1, 127, 128, 129, 255, 256, 0, 299];
    for count in [300u32, 20_000] {
        let mut plain = (0..count).collect::<Vec<u32>>(alloc)?;
        let mut list = Chunked::of(plain.clone()?)?;
        let mut value = count;
        for at in chunks {
            for one in [
                Edit::Set(at),
                Edit::Insert(at),
                Edit::Remove(at),
                Edit::Insert(at),
                Edit::Set(at),
            ] {
                value = value.wrapping_add(1);
                let (share, before) = (list.share()?, plain.clone()?);
                do_edit(&mut list, &mut plain, one, value)?;
                assert_eq!(rt;
                    elements(&rt, alloc, &list)?.as_slice(),
                    plain.as_slice(),
                    "{one:?} of {count}"
                );
                assert_eq!(rt;
                    elements(&rt, alloc, &share)?.as_slice(),
                    before.as_slice(),
                    "a share, {one:?}"
                );
            }
        }
    }
    Ok(())
}

#[test]
fn a_list_grows_and_shrinks_anywhere(rt: HostRuntime) -> Result<(), Fail> {
    let alloc = rt.alloc();
    let mut plain = Vec::new(alloc);
    let mut list = Chunked::new(alloc);
    let mut at = 0u64;
    for value in 0..1000u32 {
        do_edit(
            &mut list,
            &mut plain,
            Edit::Insert(at % (u64::from(value) + 1)),
            value,
        )?;
        at = at.wrapping_add(377);
    }
    assert_eq!(rt; elements(&rt, alloc, &list)?.as_slice(), plain.as_slice());
    for left in 0..990u64 {
        do_edit(&mut list, &mut plain, Edit::Remove(at % (1000 - left)), 0)?;
        at = at.wrapping_add(611);
    }
    assert_eq!(rt; list.len(), 10);
    assert_eq!(rt; elements(&rt, alloc, &list)?.as_slice(), plain.as_slice());
    Ok(())
}

#[test]
fn shared_values_go_to_another_thread(rt: HostRuntime) -> Result<(), Fail> {
    let alloc = rt.alloc();
    let mut list = Chunked::new(alloc);
    list.push(Shared::of(alloc, vec![in alloc; 4u8, 5]?)?)?;
    list.push(Shared::of(alloc, vec![in alloc; 6u8]?)?)?;
    let share = list.share()?;
    list.set(0, Shared::of(alloc, vec![in alloc; 9u8]?)?)?;
    assert_eq!(rt; share.get(0).map(|value| value.value().len()), Some(2));
    assert_eq!(rt; list.get(0).map(|value| value.value().len()), Some(1));
    assert_eq!(rt; lengths_by_threads(&rt, share, &list), (2, 2, 2));
    Ok(())
}

#[test]
fn rows_are_covered_by_ranges(rt: HostRuntime) -> Result<(), Fail> {
    let ranges = [
        RowRange { first: 0, end: 2 },
        RowRange { first: 1, end: 4 },
        RowRange { first: 3, end: 3 },
    ];
    assert_eq!(rt; total_length(&ranges), 5);
    let buckets = Buckets::build(rt.alloc(), 4, &ranges)?;
    let wanted: [&[u32]; 4] = [&[0], &[0, 1], &[1], &[1]];
    for (row, want) in wanted.iter().enumerate() {
        assert_eq!(rt; buckets.of_row(row as u32), *want, "row {row}");
    }
    Ok(())
}

#[test]
fn a_share_keeps_what_it_had(rt: HostRuntime) -> Result<(), Fail> {
    let mut list = Chunked::new(rt.alloc());
    assert_eq!(rt; list.len(), 0);
    list.push(1)?;
    list.push(2)?;
    list.set(0, 7)?;
    let share = list.share()?;
    list.remove(0)?;
    assert_eq!(rt;
        elements(&rt, rt.alloc(), &share)?.as_slice(),
        [7, 2].as_slice()
    );
    assert_eq!(rt;
        elements(&rt, rt.alloc(), &list)?.as_slice(),
        [2].as_slice()
    );
    Ok(())
}

#[test]
fn a_value_is_put_between(rt: HostRuntime) -> Result<(), Fail> {
    let mut list = Chunked::of(vec![in rt.alloc(); 7, 8]?)?;
    let share = list.share()?;
    list.insert(1, 9)?;
    assert_eq!(rt;
        elements(&rt, rt.alloc(), &list)?.as_slice(),
        [7, 9, 8].as_slice()
    );
    assert_eq!(rt;
        elements(&rt, rt.alloc(), &share)?.as_slice(),
        [7, 8].as_slice()
    );
    Ok(())
}

#[test]
fn a_list_is_made_one_by_one(rt: HostRuntime) -> Result<(), Fail> {
    let plain = (0..300u32).collect::<Vec<u32>>(rt.alloc())?;
    let mut growing = Growing::new(rt.alloc());
    for value in plain.as_slice() {
        growing.put(*value)?;
    }
    let list = growing.finish()?;
    assert_eq!(rt;
        elements(&rt, rt.alloc(), &list)?.as_slice(),
        plain.as_slice()
    );
    Ok(())
}
