//! Rows of shares of nets, which it prints: what one hand takes, what two take by one thread, what is
//! left, and what four threads take. Of threads it prints only what is so whatever they do meanwhile.
#![tactic(auto)]

mod crowd;
mod rows;

use std::io;

fn main(rt: HostRuntime) -> io::Result<()> {
    let alloc = rt.alloc();
    rows::alone(&rt, alloc)?;
    rows::pair(&rt, alloc)?;
    rows::first(&rt, alloc)?;
    rows::none(&rt, alloc)?;
    crowd::show(&rt, alloc)
}
