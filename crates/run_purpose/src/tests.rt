//! The layouts of small plans.
ghost use Rattle.std.specs.Prelude.{IfOk};
ghost use Rattle.run_purpose.specs.Lawful.{IsSmall};

use crate::run_layout;
use capture_terms::{Class, Group, Header, Plan, Task};
use std::alloc::{AllocError, Global};
use std::test::Fail;

const HEADER: Header = Header {
    source: 0x0a000001,
    destination: 0xc0000201,
    protocol: 1,
};

// A plan of the last fragment of one group and then its first.
fn two_fragments(alloc: Global) -> Result<Plan, AllocError>
    ensures { IfOk result IsSmall }
{
    let last = Task {
        frame: 0,
        group: Some(0),
        header: HEADER,
        start: 8,
        from: 74,
        length: 4,
        last: true,
    };
    let first = Task {
        frame: 1,
        group: Some(0),
        header: HEADER,
        start: 0,
        from: 128,
        length: 8,
        last: false,
    };
    let group = Group {
        header: HEADER,
        id: 7,
        generation: 0,
    };
    Ok(Plan {
        classes: [Class::Kept, Class::Kept].to_vec(alloc)?,
        tasks: [last, first].to_vec(alloc)?,
        groups: [group].to_vec(alloc)?,
    })
}

#[test]
fn two_fragments_of_one_group_are_pooled_at_the_opening(rt: HostRuntime) -> Result<(), Fail> {
    let alloc = rt.alloc();
    let plan = two_fragments(alloc)?;
    let layout = run_layout(alloc, &plan, 7)?;
    assert_eq!(rt; layout.maps.as_slice(), [1, 2].as_slice());
    assert_eq!(rt; layout.queues.as_slice(), [2].as_slice());
    let pool = layout
        .pools
        .as_slice()
        .first()
        .expect(&rt, "there is one pool");
    assert_eq!(rt; pool.slots, 2);
    assert_eq!(rt; pool.items.as_slice(), [0, 1].as_slice());
    assert_eq!(rt; layout.logs.as_slice(), [7].as_slice());
    assert_eq!(rt; layout.cells, 1);
    Ok(())
}
