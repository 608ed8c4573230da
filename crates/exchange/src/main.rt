//! `exchange`: reads market.txt in its working folder and prints what the library answers.
#![tactic(auto)]

mod market_bytes;

use console::reply::Reply;
use market_bytes::{MOST_READ, read_market};
use std::io::Write;

fn main(rt: HostRuntime) -> anyhow::Result<()> {
    run(&rt)
}

/// All room is made before the first byte is read.
fn run(rt: &HostRuntime) -> anyhow::Result<()> {
    let heap = rt.alloc();
    let mut room = vec![in heap; 0u8; MOST_READ]?;
    let mut reply = Reply::with_room(heap)?;
    let market = read_market(rt, &mut room)?;
    reply.answer(market);
    rt.stdout().write_all(reply.bytes())?;
    Ok(())
}
