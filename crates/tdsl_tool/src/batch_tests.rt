// A capture with more tasks than are given at once, through the top call.
use crate::tests::{GREET, HELLO, repeated, report, run_quietly};
use byte_ends::{MemoryFiles, MemorySink};
use serial_terms::{Call, Record};
use std::test::Fail;

// The tasks that a record gives.
fn given(record: &Record) -> usize {
    record
        .dones
        .as_slice()
        .iter()
        .filter(|done| matches!(done.call, Call::Give { .. }))
        .count()
}

// The record gives this task.
fn gives(record: &Record, task: u64) -> bool {
    record.dones.as_slice().iter().any(|done| done.call
        == Call::Give {
            pool: 0,
            value: task,
        })
}

#[test]
fn the_task_behind_a_full_batch_is_given_by_one_record(rt: HostRuntime) -> Result<(), Fail> {
    let alloc = rt.alloc();
    let mut words = Vec::new(alloc);
    for word in ["inspect", "r", "c"] {
        words.push(String::from_str(alloc, word)?)?;
    }
    let mut entries = Vec::new(alloc);
    entries.push((String::from_str(alloc, "r")?, GREET.to_vec(alloc)?))?;
    entries.push((
        String::from_str(alloc, "c")?,
        repeated(alloc, &HELLO, 4097)?,
    ))?;
    let mut files = MemoryFiles::new(entries, Vec::new(alloc));
    let mut out = MemorySink::new(alloc, 200_000, Vec::new(alloc))?;
    let mut faults = MemorySink::new(alloc, 1000, Vec::new(alloc))?;
    let ended = run_quietly(&rt, alloc, &words, &mut files, &mut out, &mut faults)?;
    assert_eq!(rt; ended.status, 0);
    let counts = report(alloc, [4097, 0, 0, 0, 4097, 0, 0, 0, 4097, 0, 4097], "")?;
    assert!(rt; out.written().starts_with(&counts));
    assert!(rt; out.written().ends_with(b"finding 4096 greet 8\n"));
    let Some(history) = ended.history else {
        assert!(rt; false, "a history");
        return Ok(());
    };
    let records = history.records();
    let fills = records.iter().filter(|record| given(record) > 0).count();
    assert_eq!(rt; fills, 1);
    assert!(rt;
        records
            .iter()
            .any(|record| given(record) == 1 && gives(record, 4096))
    );
    Ok(())
}
