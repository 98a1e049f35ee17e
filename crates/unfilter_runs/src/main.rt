// What `unfilter` writes of each block that is named, and a line's end, one after another: many stored runs in one.

#![tactic(auto)]

use loading::{argument_count, load_named};
use octets::whole_part;
use printing::print_text;
use std::io;
use std::rt::{Env, Files};

fn print_block(rt: &(impl Env + Files + Print + Eprint), i: usize) -> io::Result<()> {
    let mut input = [0u8; 65537];
    let Some(n) = load_named(rt, i, &mut input)? else {
        return Ok(());
    };
    let mut first = unfilter_text::print_room();
    let mut second = unfilter_text::print_room();
    let written = unfilter_text::print(whole_part(&input, 0, n), &mut first, &mut second);
    print_text(rt, written, &first)?;
    rt.write_all(b"\n")
}

fn main(rt: HostRuntime) -> io::Result<()> {
    for i in 1..argument_count(&rt) {
        print_block(&rt, i)?;
    }
    Ok(())
}
