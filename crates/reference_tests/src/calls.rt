// How `ask` is called.
use asking::arguments::*;
use asking::replies::*;
use asking::reply;
use std::test::*;

const CALLS: [(&str, Result<Command, Misused>); 9] = [
    ("--help", Ok(Command::Help)),
    (
        "q p",
        Ok(Command::Answer {
            question: "q",
            pages: "p",
        }),
    ),
    (
        "- p",
        Ok(Command::Answer {
            question: "-",
            pages: "p",
        }),
    ),
    ("q -", Err(Misused)),
    ("", Err(Misused)),
    ("q", Err(Misused)),
    ("-x p", Err(Misused)),
    ("q --help", Err(Misused)),
    ("q p r", Err(Misused)),
];

#[test]
fn arguments(rt: HostRuntime) -> Result<(), Fail> {
    let heap = rt.alloc();
    for (arguments, expected) in CALLS {
        let all: Vec<String> = arguments
            .split_whitespace()
            .map(|argument| String::from_str(heap, argument))
            .try_collect(heap)?;
        assert_eq!(rt; Command::try_from(all.as_slice()), expected);
        let command = Command::from_arguments(all.as_slice());
        match expected {
            Ok(expected) => assert_eq!(rt; command, expected),
            Err(Misused) => assert_eq!(rt; command, Command::Misused),
        }
    }
    Ok(())
}

#[test]
fn broken_page_file(rt: HostRuntime) -> Result<(), Fail> {
    let Err(failure) = reply(rt.alloc(), b"from t", "x.pages", &[0u8; 100]) else {
        return Err(Fail::new("a broken page file was read"));
    };
    assert_eq!(rt;
        failure.to_string(rt.alloc())?.as_str(),
        "ask: 'x.pages' isn't a whole number of pages of 4096 bytes"
    );
    Ok(())
}

#[test]
fn unreadable_file(rt: HostRuntime) -> Result<(), Fail> {
    let line = cannot_read(rt.alloc(), "q", "gone")?;
    assert_eq!(rt; line.as_str(), "ask: can't read 'q': gone");
    Ok(())
}

#[test]
fn usage(rt: HostRuntime) -> Result<(), Fail> {
    assert_eq!(rt;
        Misused.to_string(rt.alloc())?.as_str(),
        "ask: a question and a page file are wanted; ask --help says more"
    );
    Ok(())
}
