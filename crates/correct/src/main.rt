// correct FILE RECORDS NEW-FILE: runs a list of correction records on a file of at most 65,536 bytes, writes the
// corrected file under a new name and prints the answer.

#![tactic(auto)]

use correction_format::ListOutcome;
use loading::{argument, argument_count, file_name, load_argument, tell};
use octets::whole_part;
use printing::print_text;
use std::fs::{File, OpenFile};
use std::io;
use std::io::Write;
use std::rt::{Env, Files};

fn fill(file: &mut (impl Write + OpenFile), bytes: &[u8]) -> io::Result<()> {
    file.write_all(bytes)?;
    file.sync_all()
}

// Writes a file that no file may have the name of yet; it is taken away again if that fails.
fn write_new(rt: &impl Files, path: &[u8], bytes: &[u8]) -> io::Result<()> {
    let name = file_name(path)?;
    let mut file = File::create_new(rt, name)?;
    let filled = fill(&mut file, bytes);
    if filled.is_err() {
        let _ = rt.remove_file(name);
    }
    filled
}

// Writes a file under the name that an argument gives, which no file may have yet, and answers whether it is there.
fn save(rt: &(impl Env + Files + Eprint), i: usize, bytes: &[u8]) -> bool {
    let mut path = [0u8; 4096];
    let n = argument(rt, i, &mut path);
    match write_new(rt, &path[..n], bytes) {
        Ok(()) => true,
        Err(why) => {
            tell(rt, &path[..n], why);
            false
        }
    }
}

// Prints the answer of a run, once the new file that it asks for is there: no answer is printed of a file that could
// not be written.
fn deliver(
    rt: &(impl Env + Files + Print + Eprint),
    outcome: ListOutcome,
    buffer: &[u8],
) -> io::Result<()> {
    if correct_text::is_written(outcome) && !save(rt, 3, whole_part(buffer, 0, outcome.length)) {
        return Ok(());
    }
    let mut text = correct_text::report_room();
    let written = correct_text::report(outcome, &mut text);
    print_text(rt, written, &text)
}

fn correct(rt: &(impl Env + Files + Print + Eprint)) -> io::Result<()> {
    let mut buffer = [0u8; 65536];
    let Some(n) = load_argument(rt, 1, &mut buffer)? else {
        return Ok(());
    };
    let mut list = [0u8; 65536];
    let Some(m) = load_argument(rt, 2, &mut list)? else {
        return Ok(());
    };
    let outcome = sff_corrector::correct_list(&mut buffer, n, whole_part(&list, 0, m));
    deliver(rt, outcome, &buffer)
}

fn main(rt: HostRuntime) -> io::Result<()> {
    if argument_count(&rt) == 4 {
        correct(&rt)
    } else {
        eprintln!(rt; "usage: correct FILE RECORDS NEW-FILE")
    }
}
