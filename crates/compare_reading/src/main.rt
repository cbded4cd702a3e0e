#![tactic(auto)]

mod chance;
mod draft;
mod growth;
mod questions;

use chance::Chance;
use draft::Draft;

fn main(rt: HostRuntime) -> anyhow::Result<()> {
    let mut draft = Draft::new(rt.alloc(), Chance::new(1));
    draft.question()?;
    let text = String::from_utf8_lossy(rt.alloc(), draft.text.as_slice())?;
    println!(rt; "{text}")?;
    Ok(())
}
