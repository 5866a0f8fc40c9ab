//! Sets of slots, and how many of them a table takes.

use bd_slots::{SlotSet, table_length};
use std::test::Fail;

#[test]
fn slots_are_taken_and_given(rt: HostRuntime) -> Result<(), Fail> {
    let mut slots = SlotSet::new(rt.alloc(), 65)?;
    assert_eq!(rt; slots.take(), Some(0));
    assert_eq!(rt; slots.take(), Some(1));
    slots.give(0);
    slots.hold(64);
    assert!(rt; slots.is_free(0));
    for _ in 0..63 {
        assert!(rt; slots.take().is_some());
    }
    assert_eq!(rt; slots.free(), 0);
    assert_eq!(rt; slots.take(), None);
    Ok(())
}

#[test]
fn a_table_takes_as_many_slots_as_its_entries_need(rt: HostRuntime) {
    for (entries, slots) in [(1, 1), (2729, 1), (2730, 2), (65536, 25)] {
        assert_eq!(rt; table_length(entries), slots, "{entries} entries");
    }
}
