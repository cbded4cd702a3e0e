// Asks every question in flights/ and holds what comes to the file beside it: NAME.rows has the rows,
// NAME.refusal the line that refuses.
#![tactic(auto)]

use asking::replies::*;
use asking::reply;
use std::alloc::AllocError;
use std::fs;

const FOLDER: &str = "flights";

const QUESTION: &str = ".question";

// The names of the questions, in order.
fn names(rt: &HostRuntime) -> anyhow::Result<Vec<String>> {
    let mut names = Vec::new(rt.alloc());
    for entry in fs::read_dir(rt, FOLDER)? {
        let entry = entry?;
        if let Some(name) = entry.file_name().strip_suffix(QUESTION) {
            names.push(String::from_str(rt.alloc(), name)?)?;
        }
    }
    names.sort()?;
    Ok(names)
}

// Does the question come to what its file says.
fn holds(rt: &HostRuntime, name: &str, pages: &[u8]) -> anyhow::Result<bool> {
    let heap = rt.alloc();
    let text = fs::read(rt, format!(in heap; "{FOLDER}/{name}{QUESTION}")?)?;
    let (said, ending) = match reply(heap, text.as_slice(), "flights.pages", pages) {
        Ok(rows) => (rows, "rows"),
        Err(Failure::Said(line)) => (format!(in heap; "{line}\n")?.into_bytes(), "refusal"),
        Err(Failure::OutOfMemory) => return Err(AllocError.into()),
    };
    let path = format!(in heap; "{FOLDER}/{name}.{ending}")?;
    if !fs::exists(rt, path.as_str())? {
        return Ok(false);
    }
    Ok(fs::read(rt, path)? == said)
}

fn main(rt: HostRuntime) -> anyhow::Result<()> {
    let pages = fs::read(&rt, format!(in rt.alloc(); "{FOLDER}/flights.pages")?)?;
    let names = names(&rt)?;
    for name in names.iter() {
        let name = name.as_str();
        let verdict = if holds(&rt, name, pages.as_slice())? {
            "holds"
        } else {
            "DIFFERS"
        };
        println!(rt; "{name}: {verdict}")?;
    }
    let count = names.len();
    println!(rt; "{count} questions")?;
    Ok(())
}
