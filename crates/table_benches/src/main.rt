//! Times the calls of the table format: `table_benches CASE COUNT`, where CASE is `entries` (so many entries, read and
//! compared) or `write` (a table of so many entries). Without arguments it does nothing.
#![tactic(auto)]

mod entries;
mod keys;
mod write;

use std::env;

fn main(rt: HostRuntime) -> anyhow::Result<()> {
    let mut args = env::args(&rt)?.skip(1);
    let (Some(case), Some(count)) = (args.next(), args.next()) else {
        return Ok(());
    };
    let count: u32 = count.as_str().parse()?;
    match case.as_str() {
        "entries" => entries::time(&rt, count),
        "write" => write::time(&rt, count),
        _ => Ok(()),
    }
}
