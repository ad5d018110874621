//! What words of the command line ask for.

use lmn_app_words::{Command, RunSettings, RunWords, in_form};
use lmn_order::Order;
use std::alloc::{AllocError, Global};
use std::test::Fail;

/// What a run is given without options.
const SETTINGS: RunSettings = RunSettings {
    trace: false,
    folded: false,
    budget: 1_000_000,
    size: 16_777_216,
    order: Order::First,
};

/// What `run f` asks for.
const PLAIN: RunWords = RunWords {
    file: "f",
    settings: SETTINGS,
};

/// Words behind `run`, and what they ask for.
const RUNS: &[(&[&str], RunWords)] = &[
    (&["f"], PLAIN),
    (
        &["a=b"],
        RunWords {
            file: "a=b",
            ..PLAIN
        },
    ),
    (
        &["run"],
        RunWords {
            file: "run",
            ..PLAIN
        },
    ),
    (
        &["--trace", "f", "--budget=5"],
        RunWords {
            settings: RunSettings {
                trace: true,
                budget: 5,
                ..SETTINGS
            },
            ..PLAIN
        },
    ),
    (
        &["--folded", "f"],
        RunWords {
            settings: RunSettings {
                folded: true,
                ..SETTINGS
            },
            ..PLAIN
        },
    ),
    (
        &["f", "--budget", "0"],
        RunWords {
            settings: RunSettings {
                budget: 0,
                ..SETTINGS
            },
            ..PLAIN
        },
    ),
    (
        &["--budget", "9223372036854775807", "f"],
        RunWords {
            settings: RunSettings {
                budget: 9_223_372_036_854_775_807,
                ..SETTINGS
            },
            ..PLAIN
        },
    ),
    (
        &["f", "--budget=0000000000000000005"],
        RunWords {
            settings: RunSettings {
                budget: 5,
                ..SETTINGS
            },
            ..PLAIN
        },
    ),
    (
        &["--size=1", "f"],
        RunWords {
            settings: RunSettings {
                size: 1,
                ..SETTINGS
            },
            ..PLAIN
        },
    ),
    (
        &["f", "--size", "4294967295"],
        RunWords {
            settings: RunSettings {
                size: 4_294_967_295,
                ..SETTINGS
            },
            ..PLAIN
        },
    ),
    (&["f", "--order", "first"], PLAIN),
    (
        &["f", "--order", "turn"],
        RunWords {
            settings: RunSettings {
                order: Order::Turn,
                ..SETTINGS
            },
            ..PLAIN
        },
    ),
    (
        &["f", "--order=seed"],
        RunWords {
            settings: RunSettings {
                order: Order::Seed(0),
                ..SETTINGS
            },
            ..PLAIN
        },
    ),
    (
        &["f", "--order=seed", "--seed", "7"],
        RunWords {
            settings: RunSettings {
                order: Order::Seed(7),
                ..SETTINGS
            },
            ..PLAIN
        },
    ),
    (
        &["--seed=7", "f", "--order", "seed"],
        RunWords {
            settings: RunSettings {
                order: Order::Seed(7),
                ..SETTINGS
            },
            ..PLAIN
        },
    ),
    (&["f", "--seed=7"], PLAIN),
    (
        &["--seed", "0", "f", "--order=turn"],
        RunWords {
            settings: RunSettings {
                order: Order::Turn,
                ..SETTINGS
            },
            ..PLAIN
        },
    ),
    (
        &[
            "--seed=9223372036854775807",
            "--order",
            "seed",
            "--size",
            "2",
            "f",
            "--folded",
            "--budget=3",
            "--trace",
        ],
        RunWords {
            settings: RunSettings {
                trace: true,
                folded: true,
                budget: 3,
                size: 2,
                order: Order::Seed(9_223_372_036_854_775_807),
            },
            ..PLAIN
        },
    ),
];

/// These words, behind a first one.
fn words_of(alloc: Global, first: &[&str], rest: &[&str]) -> Result<Vec<String>, AllocError> {
    let mut strings = Vec::new(alloc);
    for word in first {
        strings.push(String::from_str(alloc, word)?)?;
    }
    for word in rest {
        strings.push(String::from_str(alloc, word)?)?;
    }
    Ok(strings)
}

#[test]
fn runs_ask_for_these(rt: HostRuntime) -> Result<(), Fail> {
    for (i, row) in RUNS.iter().enumerate() {
        let words = words_of(rt.alloc(), &["run"], row.0)?;
        assert!(rt; in_form(words.as_slice()), "form of row {i}");
        assert_eq!(rt;
            Command::from_words(rt.alloc(), words.as_slice())?,
            Some(Command::Run(row.1)),
            "row {i}"
        );
    }
    Ok(())
}

#[test]
fn one_file_is_compiled(rt: HostRuntime) -> Result<(), Fail> {
    let words = words_of(rt.alloc(), &["compile"], &["f"])?;
    assert!(rt; in_form(words.as_slice()));
    assert_eq!(rt;
        Command::from_words(rt.alloc(), words.as_slice())?,
        Some(Command::Compile("f"))
    );
    Ok(())
}

#[test]
fn demonstrations_have_a_number(rt: HostRuntime) -> Result<(), Fail> {
    for (word, number) in [
        ("1", 1),
        ("007", 7),
        ("0000000000000000001", 1),
        ("100000", 100_000),
    ] {
        let words = words_of(rt.alloc(), &["demo"], &[word])?;
        assert!(rt; in_form(words.as_slice()), "form of {word}");
        assert_eq!(rt;
            Command::from_words(rt.alloc(), words.as_slice())?,
            Some(Command::Demo(number)),
            "{word}"
        );
    }
    Ok(())
}
