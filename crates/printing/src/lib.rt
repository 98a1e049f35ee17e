// A text as the programs print it.

#![tactic(auto)]

use answers::Refusal;
use lines::inner::RefusalLine;
use octets::whole_part;
use std::io;
use text::inner::write_text;

// Prints the text that a call put at the front of `buffer`, or the line of the call's refusal.
pub fn print_text(
    rt: &impl Print,
    written: Result<usize, Refusal>,
    buffer: &[u8],
) -> io::Result<()> {
    match written {
        Ok(length) => rt.write_all(whole_part(buffer, 0, length)),
        Err(refusal) => {
            let mut line = [0u8; 64];
            let told = write_text(&RefusalLine::from(refusal), &mut line);
            rt.write_all(whole_part(&line, 0, told.unwrap_or(0)))
        }
    }
}
