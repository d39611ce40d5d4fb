// Reads the text of an order and its tapes, and reports what each tape holds: creel TEXT TAPE..
#![tactic(auto)]

mod file;
mod kind;
mod report;
mod walk;

use anyhow::anyhow;
use report::report_tape;
use std::{env, fs};

fn run(rt: &HostRuntime) -> anyhow::Result<()> {
    let mut args = env::args(rt)?.skip(1);
    let Some(name) = args.next() else {
        return Err(anyhow!("usage: creel TEXT TAPE.."));
    };
    let text = fs::read(rt, name.as_str())?;
    let bytes = text.len();
    println!(rt; "{name}: {bytes} bytes of text")?;
    for tape in args {
        let contents = fs::read_to_string(rt, tape.as_str())?;
        report_tape(rt, tape.as_str(), text.as_slice(), contents.as_str())?;
    }
    Ok(())
}

fn main(rt: HostRuntime) -> anyhow::Result<()> {
    run(&rt)
}
