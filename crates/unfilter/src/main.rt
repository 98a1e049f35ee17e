// Reads a filtered block from standard input, 65,536 bytes at most, and writes its data, or the line of its refusal.

#![tactic(auto)]

use loading::read_input;
use printing::print_text;
use std::io;

fn main(rt: HostRuntime) -> io::Result<()> {
    let mut input = [0u8; 65537];
    let n = read_input(&rt, &mut input)?;
    let mut first = unfilter_text::print_room();
    let mut second = unfilter_text::print_room();
    let written = unfilter_text::print(&input[..n], &mut first, &mut second);
    print_text(&rt, written, &first)
}
