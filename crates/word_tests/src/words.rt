//! What words ask, in a table.
use command_words::{Align, Command, WordsFault, read_words};
use std::alloc::Global;
use std::process::Abort;
use std::test::Fail;

/// Words, parted by blanks, where `_` stands for the empty word; what they ask, and the names of the
/// files, each with a blank behind it.
struct Case {
    words: &'static str,
    asked: Option<Command>,
    files: &'static str,
}

const TEN: Option<Command> = Some(Command::Seq {
    until: 10,
    budget: 1_000_000_000,
});

const CAMPUS: Option<Command> = Some(Command::Gen { seed: 7, size: 10 });

const STEP: Option<Command> = Some(Command::Step {
    until: 10,
    budget: 1_000_000_000,
    align: Align::Net,
    threshold: 0,
});

const FEW: Option<Command> = Some(Command::Seq {
    until: 10,
    budget: 3,
});

/// Words in the table, and words that are not.
const CASES: [Case; 61] = [
    Case {
        words: "seq --until 10 m.dml",
        asked: TEN,
        files: "m.dml ",
    },
    Case {
        words: "seq m.dml --until 10",
        asked: TEN,
        files: "m.dml ",
    },
    Case {
        words: "seq a --until 10 b --budget 3 c",
        asked: FEW,
        files: "a b c ",
    },
    Case {
        words: "seq --budget 3 --until 10 a b",
        asked: FEW,
        files: "a b ",
    },
    Case {
        words: "seq a b --until 10 --budget 3",
        asked: FEW,
        files: "a b ",
    },
    Case {
        words: "seq --until 10 seq",
        asked: TEN,
        files: "seq ",
    },
    Case {
        words: "seq seq dml --until 10",
        asked: TEN,
        files: "seq dml ",
    },
    Case {
        words: "seq 10 --until 10 010",
        asked: TEN,
        files: "10 010 ",
    },
    Case {
        words: "dml m.dml",
        asked: Some(Command::Dml { flat: false }),
        files: "m.dml ",
    },
    Case {
        words: "dml a --flat b",
        asked: Some(Command::Dml { flat: true }),
        files: "a b ",
    },
    Case {
        words: "dml --flat a a",
        asked: Some(Command::Dml { flat: true }),
        files: "a a ",
    },
    Case {
        words: "check a b",
        asked: Some(Command::Check),
        files: "a b ",
    },
    Case {
        words: "plan plan",
        asked: Some(Command::Plan),
        files: "plan ",
    },
    Case {
        words: "gen --seed 7",
        asked: CAMPUS,
        files: "",
    },
    Case {
        words: "gen --size 10 --seed 7",
        asked: CAMPUS,
        files: "",
    },
    Case {
        words: "gen --seed 1000000000000000000 --size 1000",
        asked: Some(Command::Gen {
            seed: 1_000_000_000_000_000_000,
            size: 1_000,
        }),
        files: "",
    },
    Case {
        words: "gen",
        asked: None,
        files: "",
    },
    Case {
        words: "gen --seed 7 m.dml",
        asked: None,
        files: "",
    },
    Case {
        words: "gen --seed 7 --size 0",
        asked: None,
        files: "",
    },
    Case {
        words: "gen --seed 7 --size 1001",
        asked: None,
        files: "",
    },
    Case {
        words: "gen --seed 1000000000000000001",
        asked: None,
        files: "",
    },
    Case {
        words: "gen --seed 7 --until 1",
        asked: None,
        files: "",
    },
    Case {
        words: "seq --until 10 --seed 7 m.dml",
        asked: None,
        files: "",
    },
    Case {
        words: "",
        asked: None,
        files: "",
    },
    Case {
        words: "_",
        asked: None,
        files: "",
    },
    Case {
        words: "seq m.dml",
        asked: None,
        files: "",
    },
    Case {
        words: "seq --until 010 m.dml",
        asked: None,
        files: "",
    },
    Case {
        words: "seq --until=10 m.dml",
        asked: None,
        files: "",
    },
    Case {
        words: "seq --until 10 --budget=3 m.dml",
        asked: None,
        files: "",
    },
    Case {
        words: "dml --flat=true m.dml",
        asked: None,
        files: "",
    },
    Case {
        words: "seq --until 10",
        asked: None,
        files: "",
    },
    Case {
        words: "seq --until m.dml",
        asked: None,
        files: "",
    },
    Case {
        words: "seq m.dml --until",
        asked: None,
        files: "",
    },
    Case {
        words: "seq --until --budget m.dml",
        asked: None,
        files: "",
    },
    Case {
        words: "seq --until -1 m.dml",
        asked: None,
        files: "",
    },
    Case {
        words: "seq --until 10 --budget -3 m.dml",
        asked: None,
        files: "",
    },
    Case {
        words: "seq --unt 10 m.dml",
        asked: None,
        files: "",
    },
    Case {
        words: "seq --until 10 --b 3 m.dml",
        asked: None,
        files: "",
    },
    Case {
        words: "dml --fl m.dml",
        asked: None,
        files: "",
    },
    Case {
        words: "seq --until 10 --until 10 m.dml",
        asked: None,
        files: "",
    },
    Case {
        words: "seq --until 10 --budget 3 m.dml --budget 3",
        asked: None,
        files: "",
    },
    Case {
        words: "dml --flat m.dml --flat",
        asked: None,
        files: "",
    },
    Case {
        words: "dml _ m.dml",
        asked: None,
        files: "",
    },
    Case {
        words: "seq --until _ m.dml",
        asked: None,
        files: "",
    },
    Case {
        words: "dml -- m.dml",
        asked: None,
        files: "",
    },
    Case {
        words: "dml - m.dml",
        asked: None,
        files: "",
    },
    Case {
        words: "--flat dml m.dml",
        asked: None,
        files: "",
    },
    Case {
        words: "seq --help --until 10 m.dml",
        asked: None,
        files: "",
    },
    Case {
        words: "run --until 1 --workers 65 m.dml",
        asked: None,
        files: "",
    },
    Case {
        words: "seq --until 10 --report m.dml",
        asked: TEN,
        files: "m.dml ",
    },
    Case {
        words: "seq --report 3 m.dml --until 10",
        asked: TEN,
        files: "3 m.dml ",
    },
    Case {
        words: "seq --report --until 10 m.dml --report",
        asked: None,
        files: "",
    },
    Case {
        words: "check --report m.dml",
        asked: None,
        files: "",
    },
    Case {
        words: "step --until 10 --report m.dml",
        asked: STEP,
        files: "m.dml ",
    },
    Case {
        words: "step a --schedule x0,p0.4,c --align 3 --until 10 --threshold 4 b --budget 3",
        asked: Some(Command::Step {
            until: 10,
            budget: 3,
            align: Align::Parts(3),
            threshold: 4,
        }),
        files: "a b ",
    },
    Case {
        words: "step --until 10 --schedule x m.dml",
        asked: None,
        files: "",
    },
    Case {
        words: "step --until 10 --align 4097 m.dml",
        asked: None,
        files: "",
    },
    Case {
        words: "step --until 10 --workers 1 m.dml",
        asked: None,
        files: "",
    },
    Case {
        words: "run --until 10 m.dml",
        asked: Some(Command::Run {
            until: 10,
            budget: 1_000_000_000,
            align: Align::Net,
            threshold: 0,
            workers: 4,
        }),
        files: "m.dml ",
    },
    Case {
        words: "run a --workers 64 --report --align host --until 10 --threshold 4 b --budget 3",
        asked: Some(Command::Run {
            until: 10,
            budget: 3,
            align: Align::Host,
            threshold: 4,
            workers: 64,
        }),
        files: "a b ",
    },
    Case {
        words: "fly m.dml",
        asked: None,
        files: "",
    },
];

fn split_words(alloc: Global, text: &str) -> Result<Vec<String>, Fail> {
    let mut words = Vec::new(alloc);
    for word in text.split(' ') {
        if word == "_" {
            words.push(String::from_str(alloc, "")?)?;
        } else if !word.is_empty() {
            words.push(String::from_str(alloc, word)?)?;
        }
    }
    Ok(words)
}

fn joined(alloc: Global, files: &[String]) -> Result<String, Fail> {
    let mut text = String::from_str(alloc, "")?;
    for file in files {
        text.push_str(file.as_str())?;
        text.push_str(" ")?;
    }
    Ok(text)
}

/// The word behind this option, where the option is among these words.
fn value_behind<'a>(words: &'a str, option: &str) -> Option<&'a str> {
    let mut others = words.split(' ');
    while let Some(word) = others.next() {
        if word == option {
            return others.next();
        }
    }
    None
}

fn check_case(rt: &(impl Abort + AllocGlobal), case: &Case) -> Result<(), Fail> {
    let alloc = rt.alloc();
    let words = split_words(alloc, case.words)?;
    match read_words(alloc, words.as_slice()) {
        Ok(request) => {
            assert_eq!(rt; Some(request.command), case.asked, "{}", case.words);
            let reports = case.words.split(' ').any(|word| word == "--report");
            assert_eq!(rt; request.report, reports, "{}", case.words);
            let schedule = request.schedule.as_ref().map(|word| word.as_str());
            assert_eq!(rt;
                schedule,
                value_behind(case.words, "--schedule"),
                "{}",
                case.words
            );
            let files = joined(alloc, request.files.as_slice())?;
            assert_eq!(rt; files.as_str(), case.files, "{}", case.words);
        }
        Err(fault) => {
            assert_eq!(rt; fault, WordsFault::Words, "{}", case.words);
            assert!(rt; case.asked.is_none(), "{}", case.words);
        }
    }
    Ok(())
}

#[test]
fn words_ask_what_they_say(rt: HostRuntime) -> Result<(), Fail> {
    for case in &CASES {
        check_case(&rt, case)?;
    }
    Ok(())
}

/// The words of `dml` with so many files.
fn dml_on(alloc: Global, files: usize) -> Result<Vec<String>, Fail> {
    let mut words = split_words(alloc, "dml")?;
    for _ in 0..files {
        words.push(String::from_str(alloc, "m.dml")?)?;
    }
    Ok(words)
}

#[test]
fn a_model_has_1_to_64_files(rt: HostRuntime) -> Result<(), Fail> {
    let alloc = rt.alloc();
    let most = dml_on(alloc, 64)?;
    assert!(rt;
        matches!(read_words(alloc, most.as_slice()), Ok(request) if request.files.len() == 64)
    );
    let more = dml_on(alloc, 65)?;
    assert!(rt; matches!(read_words(alloc, more.as_slice()), Err(WordsFault::Words)));
    let none = dml_on(alloc, 0)?;
    assert!(rt; matches!(read_words(alloc, none.as_slice()), Err(WordsFault::Words)));
    Ok(())
}
