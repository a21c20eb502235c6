// Runs the functions on the facts of document 01 and writes what they give: P1 to P11, what is only run, then T with a mention.
#![tactic(auto)]

mod columns;
mod components;
mod draws;
mod out;
mod searches;
mod summaries;
mod t;
mod tables;
mod texts;
mod walks;

use std::io;

fn main(rt: HostRuntime) -> io::Result<()> {
    components::run(&rt)?;
    columns::run(&rt)?;
    searches::run(&rt)?;
    walks::run(&rt)?;
    draws::run(&rt)?;
    summaries::run(&rt)?;
    columns::judge(&rt)?;
    tables::run(&rt)?;
    texts::run(&rt)?;
    components::mentions(&rt)?;
    columns::without_mentions(&rt)?;
    searches::without_mentions(&rt)?;
    walks::without_mentions(&rt)
}
