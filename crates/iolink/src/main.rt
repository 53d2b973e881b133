//! Reads a script and prints its transcript, or with `--explain` a view for people.
#![tactic(auto)]

use crate::explain::Explained;
use crate::options::{Options, USAGE};
use crate::outcome::Outcome;
use crate::session::Session;
use anyhow::anyhow;
use std::fs;
use std::io::Read;
use std::process::ExitCode;

mod diagnosis;
mod explain;
mod options;
mod orders;
mod outcome;
mod session;
#[cfg(test)]
mod tests;

fn main(rt: HostRuntime) -> ExitCode {
    match run(&rt) {
        Ok(()) => ExitCode::SUCCESS,
        Err(error) => {
            let _ = eprintln!(rt; "iolink: {error}");
            ExitCode::FAILURE
        }
    }
}

fn run(rt: &HostRuntime) -> anyhow::Result<()> {
    let options = Options::from_args(rt)?;
    if options.help {
        rt.print(USAGE)?;
        return Ok(());
    }
    let script = read_script(rt, &options)?;
    play(rt, script.as_slice(), options.explain)
}

// The script from the file that is named, else from standard input.
fn read_script(rt: &HostRuntime, options: &Options) -> anyhow::Result<Vec<u8>> {
    match &options.path {
        Some(path) => match fs::read(rt, path.as_str()) {
            Ok(script) => Ok(script),
            Err(error) => Err(anyhow!(format!(in rt.alloc(); "{path}: {error}")?)),
        },
        None => {
            let mut script = Vec::new(rt.alloc());
            rt.stdin().read_to_end(&mut script)?;
            Ok(script)
        }
    }
}

// Runs each line of a script and prints what comes of it.
fn play(rt: &HostRuntime, script: &[u8], explain: bool) -> anyhow::Result<()> {
    let mut session = Session::new();
    for (before, line) in script.split_inclusive(|b| *b == b'\n').enumerate() {
        let line = without_end(line);
        let number = before.saturating_add(1);
        match session.run_line(rt.alloc(), line) {
            Ok(Some(outcome)) => show(rt, &outcome, explain)?,
            // A script's comments head what they speak of.
            Ok(None) if explain => rt.println(String::from_utf8_lossy(rt.alloc(), line)?)?,
            Ok(None) => {}
            Err(problem) => println!(rt; "error line {number}: {problem}")?,
        }
    }
    Ok(())
}

// A line without its newline, or its carriage return and newline.
fn without_end(line: &[u8]) -> &[u8] {
    match line {
        [front @ .., b'\r', b'\n'] | [front @ .., b'\n'] | [front @ .., b'\r'] => front,
        _ => line,
    }
}

// Prints an outcome, and in the view for people what it means.
fn show(rt: &HostRuntime, outcome: &Outcome, explain: bool) -> anyhow::Result<()> {
    rt.println(outcome)?;
    if explain {
        rt.print(Explained(outcome))?;
    }
    Ok(())
}
