// Reads a file from standard input, 65,536 bytes at most, and prints its listing.

#![tactic(auto)]

use loading::read_input;
use printing::print_text;
use std::io;

fn main(rt: HostRuntime) -> io::Result<()> {
    let mut input = [0u8; 65537];
    let n = read_input(&rt, &mut input)?;
    let mut text = lister_text::print_room();
    let written = lister_text::print(&input[..n], &mut text);
    print_text(&rt, written, &text)
}
