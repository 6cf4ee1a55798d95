//! Items over the borders of pieces and blocks, copies that later writes leave as they were, and flags and marks over
//! the borders of words.
use clip_pieces::{Marks, PackedLists, Shared, SharedFlags, SharedList};
use std::alloc::Global;
use std::test::Fail;

#[test]
fn each_item_stands_at_its_place_over_the_borders(rt: HostRuntime) -> Result<(), Fail> {
    let mut list = SharedList::new(rt.alloc());
    for number in 0..16_500u64 {
        list.push(Shared::new(rt.alloc(), number)?)?;
    }
    assert!(rt; list.len() == 16_500);
    for place in [0, 127, 128, 255, 256, 16_383, 16_384, 16_499] {
        let number = list.get(place).map(|item| *item.value());
        assert!(rt; number == Some(place as u64));
    }
    assert!(rt; list.get(16_500).is_none());
    Ok(())
}

#[test]
fn a_write_leaves_the_other_copy_as_it_was(rt: HostRuntime) -> Result<(), Fail> {
    let mut list = SharedList::new(rt.alloc());
    for _ in 0..300 {
        list.push(0)?;
    }
    let mut copy = list.clone()?;
    for place in [0, 127, 128, 255, 256, 299] {
        assert!(rt; place < list.len());
        list.set(place, 1)?;
        assert!(rt; list.get(place) == Some(&1));
        assert!(rt; copy.get(place) == Some(&0));
    }
    assert!(rt; copy.len() == 300);
    copy.set(1, 2)?;
    copy.push(2)?;
    assert!(rt; list.get(1) == Some(&0));
    assert!(rt; list.len() == 300);
    assert!(rt; copy.last() == Some(&2));
    Ok(())
}

#[test]
fn each_flag_stands_at_its_place_over_the_borders(rt: HostRuntime) -> Result<(), Fail> {
    let mut flags = SharedFlags::new(rt.alloc());
    for place in 0..8_300u64 {
        flags.push(place % 3 == 0)?;
    }
    let copy = flags.clone()?;
    for place in [0, 1, 63, 64, 65, 8_191, 8_192, 8_299] {
        let flag = place % 3 == 0;
        assert!(rt; place < flags.len());
        assert!(rt; flags.get(place) == Some(flag));
        flags.set(place, !flag)?;
        assert!(rt; flags.get(place) == Some(!flag));
        assert!(rt; copy.get(place) == Some(flag));
    }
    assert!(rt; flags.get(62) == Some(false));
    assert!(rt; flags.get(66) == Some(true));
    assert!(rt; flags.len() == 8_300);
    assert!(rt; flags.get(8_300).is_none());
    Ok(())
}

#[test]
fn each_packed_list_stands_at_its_place(rt: HostRuntime) -> Result<(), Fail> {
    let mut lists: PackedLists<u32> = PackedLists::new(rt.alloc());
    assert!(rt; lists.get(0).is_empty());
    lists.push(&[7, 8])?;
    lists.push(&[])?;
    lists.push(&[9])?;
    assert!(rt; lists.get(0) == [7, 8].as_slice());
    assert!(rt; lists.get(1).is_empty());
    assert!(rt; lists.get(2) == [9].as_slice());
    assert!(rt; lists.get(3).is_empty());
    Ok(())
}

/// Which of some numbers are marked below a bound, in order.
fn marked(alloc: Global, bound: usize, given: &[usize]) -> Result<Vec<u32>, Fail> {
    let mut marks = Marks::new(alloc, bound)?;
    for number in given {
        marks.mark(*number);
    }
    let mut numbers = Vec::new(alloc);
    marks.numbers_into(&mut numbers)?;
    Ok(numbers)
}

/// Rows: a bound, and which of the numbers are marked below it that `marks_are_read_off_over_the_borders_of_words`
/// marks.
static MARKED: [(usize, &[u32]); 8] = [
    (0, &[]),
    (1, &[0]),
    (63, &[0, 1, 62]),
    (64, &[0, 1, 62, 63]),
    (65, &[0, 1, 62, 63, 64]),
    (128, &[0, 1, 62, 63, 64, 65, 127]),
    (4096, &[0, 1, 62, 63, 64, 65, 127, 128, 4095]),
    (4097, &[0, 1, 62, 63, 64, 65, 127, 128, 4095, 4096]),
];

#[test]
fn marks_are_read_off_over_the_borders_of_words(rt: HostRuntime) -> Result<(), Fail> {
    let given = [4095, 64, 0, 4096, 127, 62, 63, 65, 0, 1, 128, 64];
    for (bound, wanted) in &MARKED {
        assert!(rt; marked(rt.alloc(), *bound, &given)?.as_slice() == *wanted);
    }
    assert!(rt; Marks::new(rt.alloc(), 4_294_967_297).is_err());
    Ok(())
}
