// ask QUESTION PAGES: prints the rows that a question comes to on a page file.
#![tactic(auto)]

use asking::arguments::*;
use asking::replies::*;
use asking::reply;
use std::io::{Read, Write};
use std::process::ExitCode;
use std::{env, fmt, fs, io};

// Why the program ends with status 1.
#[derive(Drop)]
enum Ending {
    Arguments(io::Error),
    Misused(Misused),
    Failed(Failure),
    Printing(io::Error),
}

impl fmt::Display for Ending {
    fn fmt<W: fmt::Write>(&self, f: &mut fmt::Formatter<W>) -> fmt::Result {
        match self {
            Ending::Arguments(error) => write!(f, "ask: can't read the arguments: {error}"),
            Ending::Misused(misused) => write!(f, "{misused}"),
            Ending::Failed(failure) => write!(f, "{failure}"),
            Ending::Printing(error) => write!(f, "ask: can't print: {error}"),
        }
    }
}

fn read_input(rt: &HostRuntime, name: &str) -> io::Result<Vec<u8>> {
    if name == "-" {
        let mut bytes = Vec::new(rt.alloc());
        rt.stdin().read_to_end(&mut bytes)?;
        Ok(bytes)
    } else {
        fs::read(rt, name)
    }
}

fn read_or_say(rt: &HostRuntime, name: &str) -> Result<Vec<u8>, Failure> {
    let heap = rt.alloc();
    read_input(rt, name).try_map_err(|error| -> Result<Failure, Failure> {
        let reason = error.to_string(heap)?;
        Ok(Failure::Said(cannot_read(heap, name, reason.as_str())?))
    })
}

fn help(rt: &HostRuntime) -> Result<Vec<u8>, Failure> {
    Ok(HELP.as_bytes().to_vec(rt.alloc())?)
}

fn answer(rt: &HostRuntime, question: &str, pages: &str) -> Result<Vec<u8>, Failure> {
    let text = read_or_say(rt, question)?;
    let bytes = read_or_say(rt, pages)?;
    reply(rt.alloc(), text.as_slice(), pages, bytes.as_slice())
}

// What is printed for a command.
fn obey(rt: &HostRuntime, command: Command<'_>) -> Result<Vec<u8>, Ending> {
    match command {
        Command::Help => help(rt).map_err(Ending::Failed),
        Command::Answer { question, pages } => answer(rt, question, pages).map_err(Ending::Failed),
        Command::Misused => Err(Ending::Misused(Misused)),
    }
}

fn arguments(rt: &HostRuntime) -> io::Result<Vec<String>> {
    let all: Vec<String> = env::args(rt)?.skip(1).collect(rt.alloc())?;
    Ok(all)
}

fn run(rt: &HostRuntime) -> Result<(), Ending> {
    let arguments = arguments(rt).map_err(Ending::Arguments)?;
    let bytes = obey(rt, Command::from_arguments(arguments.as_slice()))?;
    rt.stdout()
        .write_all(bytes.as_slice())
        .map_err(Ending::Printing)
}

// An `Err` from `main` would be printed too, behind the line that says why.
fn main(rt: HostRuntime) -> ExitCode {
    match run(&rt) {
        Ok(()) => ExitCode::SUCCESS,
        Err(ending) => {
            let _ = eprintln!(rt; "{ending}");
            ExitCode::FAILURE
        }
    }
}
