//! Runs in threads of guests on several strands. Each log passes `check`.

use crate::serve::{Came, serve, serve_all};
use std::alloc::{AllocError, Global};
use std::sync::Wait;
use std::test::Fail;
use std::thread::Threads;
use t1_guests::{CALM, Seen, counter, message, store_membar_load, two_readers};

/// Assembles a guest and runs it. There is nothing where the checker does not say that the log holds.
fn run<R: Threads + Wait + Sync>(
    rt: &R,
    alloc: Global,
    words: &str,
    guest: &str,
) -> Result<Option<Came>, AllocError> {
    let text = Vec::from_slice(alloc, guest.as_bytes())?;
    let came = serve_all(rt, alloc, words, text, CALM)?;
    let judged = serve(rt, alloc, "check", came.out.clone()?, CALM)?;
    let holds = judged.out.as_slice() == b"holds\n".as_slice();
    Ok(if holds { Some(came) } else { None })
}

/// How often a guest is run, its words and its text, whether it may be spent, and what its log shows if it
/// is not.
type Guest = (u32, &'static str, &'static str, bool, Seen<'static>);

#[test]
fn logs_show_what_the_memory_order_allows(rt: HostRuntime) -> Result<(), Fail> {
    let flag = Seen::Got {
        strand: "1",
        kind: "load",
        addr: "0000008040",
        got: "0000000000000001",
    };
    // A strand that waits for its flag may be spent before it comes; with more units it rarely is.
    let table: [Guest; 5] = [
        (
            20,
            "asm | live --cores 2 --strands 1 --ram 65536 --budget 20",
            store_membar_load(),
            false,
            Seen::OneStore,
        ),
        (
            20,
            "asm | live --cores 2 --strands 1 --ram 65536",
            message(),
            true,
            flag,
        ),
        (
            5,
            "asm | live --cores 2 --strands 1 --ram 65536 --budget 100000",
            message(),
            true,
            flag,
        ),
        (
            20,
            "asm | live --cores 4 --strands 1 --ram 65536",
            two_readers(),
            false,
            Seen::OneOrder,
        ),
        (
            1,
            "asm | live --ram 65536 --budget 3000",
            counter(),
            false,
            Seen::Put("0000000000000140"),
        ),
    ];
    for (count, words, guest, may_be_spent, seen) in table {
        for _ in 0..count {
            let Some(came) = run(&rt, rt.alloc(), words, guest)? else {
                assert!(rt; false, "a log of {words} does not hold");
                return Ok(());
            };
            let log = str::from_utf8(came.out.as_slice())?;
            let shown = seen.is(rt.alloc(), log)?;
            let spent = may_be_spent && came.status == 4;
            assert!(rt; spent || came.status == 0, "{words}");
            assert!(rt; spent || shown, "{words}");
        }
    }
    Ok(())
}
