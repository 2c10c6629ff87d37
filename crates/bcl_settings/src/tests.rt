//! Worked command lines.

use crate::settings::spelled;
use crate::{Choice, Settings, names_any, settings_of};
use std::alloc::Global;
use std::test::Fail;

fn words_of(alloc: Global, line: &str) -> Result<Vec<String>, Fail> {
    let mut words = Vec::new(alloc);
    for word in line.split_whitespace() {
        words.push(String::from_str(alloc, word)?)?;
    }
    Ok(words)
}

/// What the words of a line ask for.
fn asked(alloc: Global, line: &str) -> Result<Option<Settings>, Fail> {
    Ok(settings_of(&words_of(alloc, line)?))
}

/// What they would ask for, were all of the grammar offered.
fn meant(alloc: Global, line: &str) -> Result<Option<Settings>, Fail> {
    let words = words_of(alloc, line)?;
    let Some((mode, said)) = spelled(&words) else {
        return Ok(None);
    };
    Ok(mode.with_options(said))
}

const COUNT: Settings = Settings::Count {
    k: 21,
    ranks: 4,
    min: 1,
    choice: Choice::Own,
    hist: false,
};

const CONTIGS: Settings = Settings::Contigs {
    k: 21,
    ranks: 4,
    choice: Choice::Own,
};

#[test]
fn options_have_their_defaults(rt: HostRuntime) -> Result<(), Fail> {
    assert_eq!(rt; asked(rt.alloc(), "count 21")?, Some(COUNT));
    assert_eq!(rt; asked(rt.alloc(), "contigs 21")?, Some(CONTIGS));
    Ok(())
}

#[test]
fn a_count_has_its_ranks(rt: HostRuntime) -> Result<(), Fail> {
    let alloc = rt.alloc();
    let ranked = Settings::Count {
        k: 21,
        ranks: 64,
        min: 1,
        choice: Choice::Own,
        hist: false,
    };
    assert_eq!(rt; asked(alloc, "count 21 --ranks 64")?, Some(ranked));
    assert_eq!(rt; asked(alloc, "count 21 --ranks 4")?, Some(COUNT));
    assert!(rt; !names_any(&words_of(alloc, "count 21 --ranks 64")?));
    assert!(rt; !names_any(&words_of(alloc, "count 21 --promise any")?));
    Ok(())
}

#[test]
fn contigs_have_their_ranks(rt: HostRuntime) -> Result<(), Fail> {
    let alloc = rt.alloc();
    for ranks in [1, 64] {
        let ranked = Settings::Contigs {
            k: 21,
            ranks,
            choice: Choice::Own,
        };
        let line = format!(in alloc; "contigs 21 --ranks {ranks}")?;
        assert_eq!(rt; asked(alloc, &line)?, Some(ranked));
    }
    assert_eq!(rt; asked(alloc, "contigs 21 --ranks 4")?, Some(CONTIGS));
    assert!(rt; !names_any(&words_of(alloc, "contigs 21 --ranks 64")?));
    assert!(rt; !names_any(&words_of(alloc, "contigs 21 --promise any")?));
    Ok(())
}

#[test]
fn no_other_option_is_offered_yet(rt: HostRuntime) -> Result<(), Fail> {
    let lines = [
        "count 21 --min 1",
        "count 21 --ranks 4 --min 1",
        "count 21 --promise own",
        "count 21 --hist",
        "contigs 21 --promise own",
        "contigs 21 --ranks 4 --promise own",
        "drill 0 1 21",
    ];
    for line in lines {
        assert!(rt; meant(rt.alloc(), line)?.is_some(), "{line}");
        assert!(rt; asked(rt.alloc(), line)?.is_none(), "{line}");
    }
    Ok(())
}

#[test]
fn options_stand_in_any_order(rt: HostRuntime) -> Result<(), Fail> {
    let count = Settings::Count {
        k: 31,
        ranks: 64,
        min: 4294967295,
        choice: Choice::Any,
        hist: true,
    };
    let drill = Settings::Drill {
        number: 18446744073709551615,
        lines: 65536,
        k: 1,
        ranks: 8,
        choice: Choice::Any,
    };
    let cases = [
        (
            "count 31 --ranks 64 --min 4294967295 --promise any --hist",
            count,
        ),
        (
            "count 31 --hist --promise any --min 4294967295 --ranks 64",
            count,
        ),
        ("count 21 --promise own --min 1 --ranks 4", COUNT),
        ("contigs 21 --promise own --ranks 4", CONTIGS),
        (
            "drill 18446744073709551615 65536 1 --promise any --ranks 8",
            drill,
        ),
    ];
    for (line, settings) in cases {
        assert_eq!(rt; meant(rt.alloc(), line)?, Some(settings), "{line}");
    }
    Ok(())
}

#[test]
fn other_words_mean_nothing(rt: HostRuntime) -> Result<(), Fail> {
    let lines = [
        "",
        "count",
        "count 0",
        "count 03",
        "count +3",
        "count 32",
        "count 3 3",
        "counts 3",
        "count 3 --",
        "count 3 --min 0",
        "count 3 --min 4294967296",
        "count 3 --ranks 0",
        "count 3 --ranks 65",
        "count 3 --ranks 02",
        "count 3 --ranks=2",
        "count 3 --promise",
        "count 3 --promise Own",
        "count 3 --ranks 2 --ranks 2",
        "count 3 --hist --hist",
        "count 3 --hist 1",
        "count --ranks 2 3",
        "--ranks 2 count 3",
        "contigs 3 --min 2",
        "contigs 3 --hist",
        "contigs 3 --ranks 0",
        "contigs 3 --ranks 65",
        "contigs 3 --ranks 2 --ranks 2",
        "contigs --ranks 2 3",
        "drill 1 2",
        "drill 01 2 3",
        "drill 1 0 3",
        "drill 1 65537 3",
        "drill 1 2 3 --min 2",
        "drill 18446744073709551616 2 3",
    ];
    for line in lines {
        assert!(rt; meant(rt.alloc(), line)?.is_none(), "{line}");
        assert!(rt; asked(rt.alloc(), line)?.is_none(), "{line}");
    }
    Ok(())
}
