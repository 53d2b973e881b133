//! Compares what the frame library writes and reads with octets that are known from elsewhere.
#![tactic(auto)]

use crate::row::Row;
use crate::tally::Tally;
use crate::trouble::Trouble;
use crate::verdict::Verdict;
use std::io::Read;
use worked::worked_cases;

mod frames;
mod row;
mod tally;
mod task;
mod trouble;
mod verdict;

fn main(rt: HostRuntime) -> anyhow::Result<()> {
    run(&rt)
}

fn run(rt: &HostRuntime) -> anyhow::Result<()> {
    let mut table = String::new(rt.alloc());
    rt.stdin().read_to_string(&mut table)?;
    let mut tally = Tally::default();
    for line in table.as_str().lines() {
        if let Some(row) = Row::parse(line) {
            let same = compare(rt, &row)?;
            tally.count(same);
        }
    }
    rt.println(tally)?;
    let cases = worked_cases();
    println!(rt; "{cases} worked cases, each a theorem")?;
    Ok(())
}

// Prints whether what a row asks for gives what it expects.
fn compare(rt: &HostRuntime, row: &Row<'_>) -> anyhow::Result<bool> {
    let got = match task::found(rt.alloc(), row.task, row.expected) {
        Ok(text) => text,
        Err(trouble @ Trouble::Memory) => return Err(trouble.into()),
        Err(trouble) => trouble.to_string(rt.alloc())?,
    };
    let verdict = Verdict {
        name: row.name,
        expected: row.expected,
        got: got.as_str(),
    };
    rt.println(verdict)?;
    Ok(verdict.same())
}
