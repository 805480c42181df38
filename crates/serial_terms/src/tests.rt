//! A plain list, at the type that records use it at.

use crate::{Call, Done, PlainList, Record, Reply};
use std::test::Fail;

#[test]
fn a_record_keeps_its_calls_in_order(rt: HostRuntime) -> Result<(), Fail> {
    let get = Done {
        call: Call::MapGet { map: 0, key: 7 },
        reply: Reply::Value(70),
        child: false,
    };
    let put = Done {
        call: Call::MapPut {
            map: 0,
            key: 8,
            value: 80,
        },
        reply: Reply::Nothing,
        child: true,
    };
    let record = Record {
        caller: 1,
        index: 0,
        place: 3,
        writer: true,
        dones: PlainList::from_vec([get, put].to_vec(rt.alloc())?),
    };
    assert_eq!(rt; record.dones.as_slice(), [get, put].as_slice());
    assert_ne!(rt; get, put);
    let calls = record.dones.into_vec();
    assert_eq!(rt; calls.len(), 2);
    Ok(())
}
