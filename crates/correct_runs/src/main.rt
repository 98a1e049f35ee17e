// What `correct` prints for each file and list that the arguments name in pairs, and the listing of the new file: many
// stored runs in one.

#![tactic(auto)]

use correction_format::ListOutcome;
use loading::{argument, argument_count, load_argument};
use octets::whole_part;
use printing::print_text;
use std::io;
use std::rt::{Env, Files};

fn print_argument(rt: &(impl Env + Print), i: usize, end: &[u8]) -> io::Result<()> {
    let mut word = [0u8; 4096];
    let n = argument(rt, i, &mut word);
    rt.write_all(&word[..n])?;
    rt.write_all(end)
}

// Prints the answer, and the listing of the file that `correct` would write.
fn print_outcome(rt: &impl Print, outcome: ListOutcome, buffer: &[u8]) -> io::Result<()> {
    let mut text = correct_text::report_room();
    let written = correct_text::report(outcome, &mut text);
    print_text(rt, written, &text)?;
    if correct_text::is_written(outcome) {
        let mut lines = lister_text::print_room();
        let listed = lister_text::print(whole_part(buffer, 0, outcome.length), &mut lines);
        print_text(rt, listed, &lines)?;
    }
    Ok(())
}

fn correct(
    rt: &(impl Env + Files + Print + Eprint),
    file: usize,
    records: usize,
) -> io::Result<()> {
    print_argument(rt, file, b" ")?;
    print_argument(rt, records, b":\n")?;
    let mut buffer = [0u8; 65536];
    let Some(n) = load_argument(rt, file, &mut buffer)? else {
        return Ok(());
    };
    let mut list = [0u8; 65536];
    let Some(m) = load_argument(rt, records, &mut list)? else {
        return Ok(());
    };
    let outcome = sff_corrector::correct_list(&mut buffer, n, whole_part(&list, 0, m));
    print_outcome(rt, outcome, &buffer)
}

fn main(rt: HostRuntime) -> io::Result<()> {
    let pairs = argument_count(&rt) / 2;
    for i in 0..pairs {
        correct(&rt, 2 * i + 1, 2 * i + 2)?;
    }
    Ok(())
}
