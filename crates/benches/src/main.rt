//! Times the calls of the repository: `benches CASE COUNT`, where CASE is `ask` (a question over so many documents),
//! `index` (an index file of so many documents, written and searched), `parse` (queries of so many words), `sets`
//! (sets of numbers below COUNT), `gather` (so many pairs of a key and a number) or `packed` (so many packed numbers).
//! Without arguments it does nothing.
#![tactic(auto)]

mod ask;
mod gather;
mod generated;
mod index;
mod packed;
mod parse;
mod sets;

use std::env;

fn main(rt: HostRuntime) -> anyhow::Result<()> {
    let mut args = env::args(&rt)?.skip(1);
    let (Some(case), Some(count)) = (args.next(), args.next()) else {
        return Ok(());
    };
    let count: u32 = count.as_str().parse()?;
    match case.as_str() {
        "ask" => ask::time(&rt, count),
        "index" => index::time(&rt, count),
        "parse" => parse::time(&rt, count),
        "sets" => sets::time(&rt, count),
        "gather" => gather::time(&rt, count),
        "packed" => packed::time(&rt, count),
        _ => Ok(()),
    }
}
