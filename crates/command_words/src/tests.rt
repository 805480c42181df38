use crate::{Command, command_of};
use std::alloc::{AllocError, Global};
use std::test::Fail;

fn list(alloc: Global, words: &[&str]) -> Result<Vec<String>, AllocError> {
    let mut list = Vec::new(alloc);
    for word in words {
        list.push(String::from_str(alloc, *word)?)?;
    }
    Ok(list)
}

#[test]
fn an_inspection_is_read_from_its_words(rt: HostRuntime) -> Result<(), Fail> {
    let lists: [(&[&str], u32, u32, u32); 9] = [
        (&["inspect", "r", "-c"], 65_536, 30, 4),
        (&["inspect", "--window", "1", "r", "-c"], 65_536, 1, 4),
        (
            &["inspect", "--window", "86400", "r", "-c"],
            65_536,
            86_400,
            4,
        ),
        (&["inspect", "--findings", "1", "r", "-c"], 1, 30, 4),
        (
            &[
                "inspect",
                "--findings",
                "1048576",
                "--window",
                "31",
                "r",
                "-c",
            ],
            1_048_576,
            31,
            4,
        ),
        (
            &["inspect", "--window", "31", "--findings", "2", "r", "-c"],
            2,
            31,
            4,
        ),
        (&["inspect", "--workers", "1", "r", "-c"], 65_536, 30, 1),
        (&["inspect", "--workers", "16", "r", "-c"], 65_536, 30, 16),
        (
            &[
                "inspect",
                "--window",
                "31",
                "--workers",
                "2",
                "--findings",
                "3",
                "r",
                "-c",
            ],
            3,
            31,
            2,
        ),
    ];
    for (words, findings, window, workers) in lists {
        let words = list(rt.alloc(), words)?;
        let Command::Inspect { names, settings } = command_of(&words) else {
            assert!(rt; false, "an inspection");
            return Ok(());
        };
        assert_eq!(rt; names.rules, "r");
        assert_eq!(rt; names.capture, "-c");
        assert_eq!(rt; settings.findings, findings);
        assert_eq!(rt; settings.window, window);
        assert_eq!(rt; settings.workers, workers);
    }
    Ok(())
}

#[test]
fn a_journal_is_read_from_the_words_of_an_inspection(rt: HostRuntime) -> Result<(), Fail> {
    let lists: [(&[&str], u32, u32, u32); 2] = [
        (&["journal", "r", "-c"], 65_536, 30, 4),
        (
            &[
                "journal",
                "--window",
                "31",
                "--workers",
                "2",
                "--findings",
                "3",
                "r",
                "-c",
            ],
            3,
            31,
            2,
        ),
    ];
    for (words, findings, window, workers) in lists {
        let words = list(rt.alloc(), words)?;
        let Command::Journal { names, settings } = command_of(&words) else {
            assert!(rt; false, "a journal");
            return Ok(());
        };
        assert_eq!(rt; names.rules, "r");
        assert_eq!(rt; names.capture, "-c");
        assert_eq!(rt; settings.findings, findings);
        assert_eq!(rt; settings.window, window);
        assert_eq!(rt; settings.workers, workers);
    }
    Ok(())
}

#[test]
fn a_window_is_a_number_of_seconds_and_given_once(rt: HostRuntime) -> Result<(), Fail> {
    for value in [
        "",
        "0",
        "86401",
        "030",
        "+30",
        "-30",
        " 30",
        "30s",
        "0x1e",
        "4294967326",
        "--window",
    ] {
        let words = list(rt.alloc(), &["inspect", "--window", value, "r", "c"])?;
        assert!(rt; matches!(command_of(&words), Command::Unknown), "{value}");
    }
    let lists: [&[&str]; 6] = [
        &["inspect", "--window", "30"],
        &["inspect", "--window", "30", "r"],
        &["inspect", "r", "c", "--window", "30"],
        &["inspect", "--window=30", "r", "c"],
        &["inspect", "--window", "30", "--window", "30", "r", "c"],
        &["inspect", "--windows", "30", "r", "c"],
    ];
    for words in lists {
        let words = list(rt.alloc(), words)?;
        assert!(rt; matches!(command_of(&words), Command::Unknown));
    }
    Ok(())
}

#[test]
fn an_audit_is_read_from_its_words(rt: HostRuntime) -> Result<(), Fail> {
    for name in ["j", "-", "audit", "a journal"] {
        let words = list(rt.alloc(), &["audit", name])?;
        let Command::Audit { journal } = command_of(&words) else {
            assert!(rt; false, "an audit");
            return Ok(());
        };
        assert_eq!(rt; journal, name);
    }
    Ok(())
}

#[test]
fn a_capture_to_make_or_to_try_is_read_from_its_words(rt: HostRuntime) -> Result<(), Fail> {
    let lists: [(&str, &str, u64, u32); 3] = [
        ("9", "0", 9, 0),
        ("0", "262144", 0, 262_144),
        (
            "18446744073709551615",
            "20000",
            18_446_744_073_709_551_615,
            20_000,
        ),
    ];
    for (seed_word, frames_word, want_seed, want_frames) in lists {
        let words = list(rt.alloc(), &["make", seed_word, frames_word])?;
        let Command::Make(making) = command_of(&words) else {
            assert!(rt; false, "a capture to make");
            return Ok(());
        };
        assert_eq!(rt; making.seed, want_seed);
        assert_eq!(rt; making.frames, want_frames);
    }
    let tried: [(&[&str], u64, u32, u32); 3] = [
        (&["trial", "9", "0"], 9, 0, 4),
        (&["trial", "--workers", "1", "9", "0"], 9, 0, 1),
        (&["trial", "--workers", "16", "0", "262144"], 0, 262_144, 16),
    ];
    for (words, want_seed, want_frames, want_workers) in tried {
        let words = list(rt.alloc(), words)?;
        let Command::Trial { making, workers } = command_of(&words) else {
            assert!(rt; false, "a trial");
            return Ok(());
        };
        assert_eq!(rt; making.seed, want_seed);
        assert_eq!(rt; making.frames, want_frames);
        assert_eq!(rt; workers, want_workers);
    }
    let others: [&[&str]; 19] = [
        &["make"],
        &["trial", "9"],
        &["trial", "9", "262145"],
        &["trial", "--findings", "1", "9", "0"],
        &["make", "9"],
        &["make", "9", "0", "0"],
        &["make", "18446744073709551616", "0"],
        &["make", "09", "0"],
        &["make", "9", "262145"],
        &["make", "9", "+1"],
        &["make", "--workers", "4"],
        &["make", "--workers", "4", "9", "0"],
        &["trial", "--workers", "4"],
        &["trial", "--workers", "4", "9"],
        &["trial", "--workers", "17", "9", "0"],
        &["trial", "--workers", "0", "9", "0"],
        &["trial", "9", "0", "--workers", "4"],
        &["trial", "--workers", "4", "--workers", "4", "9", "0"],
        &["Make", "9", "0"],
    ];
    for words in others {
        let words = list(rt.alloc(), words)?;
        assert!(rt; matches!(command_of(&words), Command::Unknown));
    }
    Ok(())
}

#[test]
fn other_words_are_unknown(rt: HostRuntime) -> Result<(), Fail> {
    let lists: [&[&str]; 31] = [
        &[],
        &["inspect"],
        &["inspect", "r"],
        &["inspect", "r", "c", "c"],
        &["inspect", "", "c"],
        &["inspect", "r", "--"],
        &["inspect", "--workers", "c"],
        &["inspect", "--workers", "r", "c"],
        &["inspect", "--workers", "0", "r", "c"],
        &["inspect", "--workers", "17", "r", "c"],
        &["inspect", "--workers", "04", "r", "c"],
        &["inspect", "r", "c", "--workers", "4"],
        &["inspect", "--workers", "4", "--workers", "4", "r", "c"],
        &["inspect", "--findings", "010", "r", "c"],
        &["inspect", "--findings", "0", "r", "c"],
        &["inspect", "--findings", "1048577", "r", "c"],
        &["inspect", "--findings", "1", "--findings", "1", "r", "c"],
        &["inspect", "r", "c", "--findings", "1"],
        &["inspect", "--workers=4", "r", "c"],
        &["Inspect", "r", "c"],
        &["journal", "r"],
        &["journal", "--format", "2", "r", "c"],
        &["Journal", "r", "c"],
        &["audit"],
        &["audit", ""],
        &["audit", "--j"],
        &["audit", "j", "k"],
        &["audit", "--window", "30", "j"],
        &["Audit", "j"],
        &["--help"],
        &["--version"],
    ];
    for words in lists {
        let words = list(rt.alloc(), words)?;
        assert!(rt; matches!(command_of(&words), Command::Unknown));
    }
    Ok(())
}
