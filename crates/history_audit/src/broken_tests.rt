//! Journals that are broken in one word or cut.

use crate::{Verdict, audit};
use std::alloc::{AllocError, Global};
use std::test::Fail;

// A record and two sights, the second one of which is refused for want of room in the log.
const SIGHTS: &[u8] =
    b"journal 2\nopen 1 0 1\nt 1 w 0 0: take 0 0; +enq 0 0\nt 1 r 1 0: qlen 0 1\ns 1 a 1 1: deq 0 0\ns 1 f 1 0 2 1 1: app 0 1; app 0 2\nend\n";

// The run of one worker over two fragments, of which the last one came first, without its title.
const FRAGMENTS: &[u8] =
    b"open 2 1 65536\nt 0 r 0 0: deq 0 -\nt 1 w 0 1: take 0 0; +get 0 0 -; +put 0 0 262156\nt 1 r 0 2: deq 0 -\nt 2 w 0 3: take 0 1; +get 0 0 262156; +put 0 0 4295753740; +put 1 1 0; +enq 0 1\nt 3 w 0 4: deq 0 1; get 0 0 4295753740; remove 0 0; get 1 1 0; remove 1 1; get 1 0 -; +appat 0 6 0\nt 3 r 0 5: deq 0 -\nt 3 r 0 6: take 0 -\nt 3 r 0 7: deq 0 -\nt 3 r 0 8: take 0 -\nend\n";

// The audit of a text that is put together.
fn judged(alloc: Global, parts: [&[u8]; 3]) -> Result<Verdict, AllocError> {
    let mut text = Vec::new(alloc);
    for part in parts {
        text.extend_from_slice(part)?;
    }
    audit(alloc, text.as_slice())
}

#[test]
fn the_run_over_two_fragments_is_legal_in_both_versions(rt: HostRuntime) -> Result<(), Fail> {
    let yes = Verdict::Yes {
        records: 9,
        sights: 0,
    };
    let titles: [&[u8]; 2] = [b"journal 1\n", b"journal 2\n"];
    for title in titles {
        assert_eq!(rt; judged(rt.alloc(), [title, FRAGMENTS, b""])?, yes);
    }
    Ok(())
}

#[test]
fn a_title_or_an_opening_broken_in_a_word_is_named(rt: HostRuntime) -> Result<(), Fail> {
    let titles: [&[u8]; 7] = [
        b"",
        b"journal",
        b"journals 1",
        b"journal 0",
        b"journal 01",
        b" journal 1",
        b"journal 1 ",
    ];
    for title in titles {
        assert_eq!(rt;
            judged(rt.alloc(), [title, b"\nopen 1 0 1", b"\nend\n"])?,
            Verdict::No { line: 1 }
        );
    }
    let openings: [&[u8]; 9] = [
        b"",
        b"opens 1 0 1",
        b"open 262145 0 1",
        b"open - 0 1",
        b"open 1 2 1",
        b"open 1 00 1",
        b"open 1 0 0",
        b"open 1 0 1048577",
        b"open 1 0 1 1",
    ];
    for opening in openings {
        assert_eq!(rt;
            judged(rt.alloc(), [b"journal 1\n", opening, b"\nend\n"])?,
            Verdict::No { line: 2 }
        );
    }
    Ok(())
}

#[test]
fn a_record_broken_in_a_word_is_named(rt: HostRuntime) -> Result<(), Fail> {
    let records: [&[u8]; 14] = [
        b"r 1 w 1 0: deq 0 0",
        b"t 0 w 1 0: deq 0 0",
        b"t 0 r 1 0: qlen 0 1",
        b"t 1 w 1 0: deq 0 0",
        b"t 1152921504606846976 w 1 0: deq 0 0",
        b"t 2 v 1 0: deq 0 0",
        b"t 2 r 1 0: deq 0 0",
        b"t 2 w 16 0: deq 0 0",
        b"t 2 w 0 0: deq 0 0",
        b"t 2 w 1 1: deq 0 0",
        b"t 2 w 1 0; deq 0 0",
        b"t 2 w 1 0: dequ 0 0",
        b"t 2 w 1 0: deq 0 0; deq 0 0",
        b"t 2 w 1 0: app 0 1; app 0 2",
    ];
    let head = b"journal 2\nopen 1 0 1\nt 1 w 0 0: take 0 0; +enq 0 0\n".as_slice();
    for record in records {
        assert_eq!(rt;
            judged(rt.alloc(), [head, record, b"\nend\n"])?,
            Verdict::No { line: 4 }
        );
    }
    let yes = Verdict::Yes {
        records: 2,
        sights: 0,
    };
    let whole = b"t 2 w 1 0: deq 0 0".as_slice();
    assert_eq!(rt; judged(rt.alloc(), [head, whole, b"\nend\n"])?, yes);
    Ok(())
}

#[test]
fn a_sight_broken_in_a_word_is_named(rt: HostRuntime) -> Result<(), Fail> {
    let sights: [&[u8]; 16] = [
        b"r 1 f 1 0 2 1 1: app 0 1; app 0 2",
        b"s 0 f 1 0 2 1 1: app 0 1; app 0 2",
        b"s 1152921504606846976 f 1 0 2 1 1: app 0 1; app 0 2",
        b"s 1 b 1 1: app 0 1; app 0 2",
        b"s 1 f 0 0 2 1 1: app 0 1; app 0 2",
        b"s 1 f 2 0 2 1 1: app 0 1; app 0 2",
        b"s 1 f 1 1 2 1 1: app 0 1; app 0 2",
        b"s 1 f 1 0 1 1 1: app 0 1; app 0 2",
        b"s 1 f 1 0 1 1 1: app 0 1",
        b"s 1 f 1 0 2 0 1: app 0 1; app 0 2",
        b"s 1 f 1 0 2 16 1: app 0 1; app 0 2",
        b"s 1 f 1 0 2 1 0: app 0 1; app 0 2",
        b"s 1 f 1 0 2 1 2: app 0 1; app 0 2",
        b"s 1 f 1 0 2 1 1: app 1 1; app 0 2",
        b"s 1 f 1 0 2 1 1: app 0 18446744073709551615; app 0 2",
        b"t 2 r 0 1: deq 0 0",
    ];
    let head =
        b"journal 2\nopen 1 0 1\nt 1 w 0 0: take 0 0; +enq 0 0\nt 1 r 1 0: qlen 0 1\ns 1 a 1 1: deq 0 0\n".as_slice();
    for sight in sights {
        assert_eq!(rt;
            judged(rt.alloc(), [head, sight, b"\nend\n"])?,
            Verdict::No { line: 6 }
        );
    }
    let yes = Verdict::Yes {
        records: 2,
        sights: 2,
    };
    assert_eq!(rt; audit(rt.alloc(), SIGHTS)?, yes);
    Ok(())
}

#[test]
fn each_form_of_a_call_may_be_legal(rt: HostRuntime) -> Result<(), Fail> {
    let calls: [&[u8]; 21] = [
        b"get 0 0 -",
        b"put 0 0 5; get 0 0 5",
        b"put 1 1 5; remove 1 1; get 1 1 -",
        b"putnew 1 0 5 -; putnew 1 0 6 5; get 1 0 5",
        b"enq 0 5; deq 0 5",
        b"deq 0 -",
        b"qlen 0 0; enq 0 5; qlen 0 1",
        b"take 0 1; take 0 0; take 0 -",
        b"give 0 7 no",
        b"take 0 0; give 0 7 yes; take 0 7",
        b"app 0 5",
        b"appat 0 5 0",
        b"read 0 0 -",
        b"app 0 5; read 0 0 5; read 0 1 -",
        b"llen 0 0; app 0 5; llen 0 1",
        b"cget 0 0",
        b"cput 0 18446744073709551615; cget 0 18446744073709551615",
        b"put 0 0 18446744073709551614",
        b"+enq 0 18446744073709551614",
        b"app 0 1; app 0 18446744073709551614",
        b"get 0 0 -; +take 0 1; give 0 1 yes",
    ];
    let yes = Verdict::Yes {
        records: 1,
        sights: 0,
    };
    let head = b"journal 1\nopen 2 1 2\nt 1 w 0 0: ".as_slice();
    for call in calls {
        assert_eq!(rt; judged(rt.alloc(), [head, call, b"\nend\n"])?, yes);
    }
    Ok(())
}

#[test]
fn a_call_to_a_map_or_the_queue_broken_in_a_word_is_named(rt: HostRuntime) -> Result<(), Fail> {
    let calls: [&[u8]; 19] = [
        b"get 2 0 -",
        b"get 0 1 -",
        b"get 0 0 5",
        b"put 2 0 5",
        b"put 0 1 5",
        b"put 0 0 18446744073709551615",
        b"remove 2 0",
        b"remove 1 2",
        b"putnew 2 0 5 -",
        b"putnew 0 1 5 -",
        b"putnew 0 0 18446744073709551615 -",
        b"putnew 0 0 5 5",
        b"enq 1 5",
        b"enq 0 18446744073709551615",
        b"deq 1 -",
        b"deq 0 5",
        b"qlen 1 0",
        b"qlen 0 1",
        b"enq 0 1; enq 0 2; enq 0 3",
    ];
    let head = b"journal 1\nopen 2 1 2\nt 1 w 0 0: ".as_slice();
    for call in calls {
        assert_eq!(rt;
            judged(rt.alloc(), [head, call, b"\nend\n"])?,
            Verdict::No { line: 3 }
        );
    }
    Ok(())
}

#[test]
fn a_call_to_the_pool_the_log_or_the_cell_broken_in_a_word_is_named(
    rt: HostRuntime,
) -> Result<(), Fail> {
    let calls: [&[u8]; 21] = [
        b"take 1 0",
        b"take 0 2",
        b"take 0 -",
        b"give 1 7 no",
        b"give 0 18446744073709551615 no",
        b"give 0 7 yes",
        b"app 1 5",
        b"app 0 18446744073709551615",
        b"appat 1 5 0",
        b"appat 0 18446744073709551615 0",
        b"appat 0 5 1",
        b"read 1 0 -",
        b"read 0 0 5",
        b"app 0 5; read 0 1 5",
        b"llen 1 0",
        b"llen 0 1",
        b"cget 1 0",
        b"cget 0 1",
        b"cput 1 0",
        b"app 0 1; app 0 2; app 0 3",
        b"get 0 0 -, deq 0 -",
    ];
    let head = b"journal 1\nopen 2 1 2\nt 1 w 0 0: ".as_slice();
    for call in calls {
        assert_eq!(rt;
            judged(rt.alloc(), [head, call, b"\nend\n"])?,
            Verdict::No { line: 3 }
        );
    }
    Ok(())
}

#[test]
fn an_end_broken_in_a_word_is_named(rt: HostRuntime) -> Result<(), Fail> {
    let ends: [&[u8]; 7] = [
        b"\n", b"End\n", b"ends\n", b" end\n", b"end \n", b"end", b"end\r\n",
    ];
    let head = b"journal 2\nopen 1 0 1\ns 0 c 0 0:\n".as_slice();
    for end in ends {
        assert_eq!(rt;
            judged(rt.alloc(), [head, end, b""])?,
            Verdict::No { line: 4 }
        );
    }
    let behind: [&[u8]; 3] = [b"\n", b"end\n", b"x"];
    for text in behind {
        assert_eq!(rt;
            judged(rt.alloc(), [head, b"end\n", text])?,
            Verdict::No { line: 5 }
        );
    }
    Ok(())
}

// A text that is cut lacks the rest of its last line, or the whole line behind.
#[test]
fn a_journal_cut_at_each_byte_lacks_its_next_line(rt: HostRuntime) -> Result<(), Fail> {
    let mut line = 1u64;
    for end in 0..SIGHTS.len() {
        assert_eq!(rt; audit(rt.alloc(), &SIGHTS[..end])?, Verdict::No { line });
        if SIGHTS[end] == b'\n' {
            line = line.saturating_add(1);
        }
    }
    assert_eq!(rt; line, 8);
    Ok(())
}
