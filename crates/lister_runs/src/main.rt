// What the lister prints of each file that is named, one after another: many stored runs in one.

#![tactic(auto)]

use loading::{argument_count, load_named};
use octets::whole_part;
use printing::print_text;
use std::io;
use std::rt::{Env, Files};

fn print_file(rt: &(impl Env + Files + Print + Eprint), i: usize) -> io::Result<()> {
    let mut input = [0u8; 65537];
    let Some(n) = load_named(rt, i, &mut input)? else {
        return Ok(());
    };
    let mut text = lister_text::print_room();
    let written = lister_text::print(whole_part(&input, 0, n), &mut text);
    print_text(rt, written, &text)
}

fn main(rt: HostRuntime) -> io::Result<()> {
    for i in 1..argument_count(&rt) {
        print_file(&rt, i)?;
    }
    Ok(())
}
