// A table by transaction, and records that enter a journal in memory.
use crate::{NodeFault, Numbered, append};
use rc_ids::{NoMemory, TxId};
use rc_log::{Journal, ListJournal};
use std::test::Fail;

/// A value is found until it is taken away, and the others stay.
#[test]
fn a_value_is_found_until_it_is_removed(rt: HostRuntime) -> Result<(), Fail> {
    let mut table: Numbered<u32> = Numbered::new(rt.alloc());
    table.room(2)?;
    table.put(TxId(7), 70);
    table.put(TxId(3), 30);
    assert!(rt; table.has(TxId(7)));
    assert_eq!(rt; table.remove(TxId(7)), Some(70));
    assert!(rt; !table.has(TxId(7)));
    assert_eq!(rt; table.get(TxId(3)).copied(), Some(30));
    assert_eq!(rt; table.remove(TxId(7)), None);
    Ok(())
}

/// A record is counted.
#[test]
fn a_record_enters_the_journal(rt: HostRuntime) -> Result<(), Fail> {
    let mut journal = ListJournal::new(rt.alloc());
    append(&mut journal, b"one")?;
    assert_eq!(rt; journal.count(), 1);
    assert!(rt; NodeFault::from(NoMemory) == NodeFault::NoMemory);
    Ok(())
}
