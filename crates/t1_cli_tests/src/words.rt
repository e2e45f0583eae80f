//! The words of the command line.

use crate::serve::{assert_rows, words_of};
use std::test::Fail;
use t1_cli::{Command, read_words};
use t1_event::Config;
use t1_guests::{Input, Out, ROW, Row, STORE_AND_LOAD};
use t1_num::ChipKind;

/// A row of words that ask for nothing.
const USAGE: Row<'static> = Row {
    input: Input::File(STORE_AND_LOAD),
    status: 1,
    out: Out::Is(""),
    err: "usage",
    ..ROW
};

#[test]
fn other_words_are_a_usage_fault(rt: HostRuntime) -> Result<(), Fail> {
    let lines = [
        "",
        "frob",
        "Run",
        "run --cores 9",
        "run --cores 1 --cores 1",
        "run --cores 1 --strands 2 --budget 1000000",
        "run --ram",
        "run --ram 65537",
        "run --sets 3",
        "run --budget 1000001",
        "run --size 1",
        "run --brief --brief",
        "live",
        "check --brief",
        "gen --seed 1",
        "gen --seed 1 --size 4001",
    ];
    let mut rows = Vec::new(rt.alloc());
    for words in lines {
        rows.push(Row { words, ..USAGE })?;
    }
    rows.push(Row {
        words: "run --budget 1000000 --strands 01 --cores 1",
        input: Input::File(STORE_AND_LOAD),
        ..ROW
    })?;
    assert_rows(&rt, rt.alloc(), rows.as_slice())?;
    Ok(())
}

/// The limits and the shape of a run without options.
const WHOLE: Config = Config {
    chip: ChipKind::T1,
    hyper: false,
    cores: 8,
    strands: 4,
    ram: 16_777_216,
    sets: 1024,
    budget: 10_000,
};

const ONE_SET: Config = Config { sets: 1, ..WHOLE };

fn run(config: Config, seed: Option<u64>, brief: bool) -> Option<Command> {
    Some(Command::Run {
        config,
        seed,
        brief,
    })
}

fn gen_of(seed: u64, size: u32) -> Option<Command> {
    Some(Command::Gen { seed, size })
}

#[test]
fn words_ask_for_commands(rt: HostRuntime) -> Result<(), Fail> {
    let table = [
        ("run", run(WHOLE, None, false)),
        ("run --brief --sets 1", run(ONE_SET, None, true)),
        (
            "run --seed 18446744073709551615",
            run(WHOLE, Some(u64::MAX), false),
        ),
        ("run --seed 18446744073709551616", None),
        ("run --seed 000000000000000000001", None),
        ("live", Some(Command::Live { config: WHOLE })),
        ("live --brief", None),
        ("check", Some(Command::Check)),
        ("gen --size 4000 --seed 0", gen_of(0, 4000)),
    ];
    for (line, want) in table {
        let words = words_of(rt.alloc(), line)?;
        assert_eq!(rt; read_words(words.as_slice()), want);
    }
    Ok(())
}
