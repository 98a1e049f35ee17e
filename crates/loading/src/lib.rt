// A file that a program reads: standard input, or one that an argument names.

#![tactic(auto)]

ghost use Rattle.std.specs.Prelude.{◌≡◌, IfOk, IsUtf8, MatchResult, length};
ghost use Rattle.text.specs.Writing.{IsPrefixLen};
ghost use Rattle.loading.specs.Loading.{Fits};

use printing::print_text;
use std::env::FillError;
use std::fs::File;
use std::io::{Cursor, Error, ErrorKind, Read, Write};
use std::rt::{Env, Files};
use std::{io, str};

// How many arguments there are, the program's name among them.
pub fn argument_count(rt: &impl Env) -> usize {
    for i in 0..usize::MAX {
        if let Err(FillError::NotPresent) = rt.arg(i, &mut []) {
            return i;
        }
    }
    usize::MAX
}

// Puts an argument's bytes, which need not be text, at the front of `word`, and answers their number: 0 where there is
// no such argument, or it is longer.
pub fn argument(rt: &impl Env, i: usize, word: &mut [u8]) -> usize
    ensures { IsPrefixLen result word.new }
{
    match rt.arg(i, word) {
        Ok(n) => n,
        Err(_) => 0,
    }
}

// A file's name as the system is given it. Names are text there: of any other no file is found.
pub fn file_name(path: &[u8]) -> io::Result<&str>
    ensures { MatchResult result (λ name. (name.now ≡ path.now) × IsUtf8 path.now) (λ _. ¬ (IsUtf8 path.now)) }
{
    match str::from_utf8(path) {
        Ok(name) => Ok(name),
        Err(_) => Err(Error::from(ErrorKind::InvalidFilename)),
    }
}

// The system's words in the text of an error, without its number of the error.
fn reason(text: &str) -> &str {
    match text.split_once(" (os error ") {
        Some((words, _)) => words,
        None => text.trim_end_matches('\0'),
    }
}

// Tells on standard error why a file could not be read or written. A program that cannot tell it goes on all the same.
pub fn tell(rt: &impl Eprint, path: &[u8], why: Error) {
    let mut buffer = Cursor::new([0u8; 320]);
    let _ = write!(buffer, "{why}");
    let text = buffer.into_inner();
    let words = reason(str::from_utf8(&text).unwrap_or(""));
    let _ = match str::from_utf8(path) {
        Ok(name) => eprintln!(rt; "{name}: {words}"),
        Err(_) => eprintln!(rt; "{}: {words}", path.escape_ascii()),
    };
}

fn print_too_long(rt: &impl Print) -> io::Result<()> {
    let mut text = correct_text::report_room();
    let written = correct_text::too_long(&mut text);
    print_text(rt, written, &text)
}

// Reads until `bytes` is full or the file ends, and answers how many bytes stand at the front of `bytes`.
fn read_full(file: &mut impl Read, bytes: &mut [u8]) -> io::Result<usize>
    ensures { IfOk result (λ n. IsPrefixLen n bytes.new) }
{
    let mut done = 0;
    while done < bytes.len() {
        let n = file.read(&mut bytes[done..])?;
        if n == 0 {
            return Ok(done);
        }
        done += n;
    }
    Ok(done)
}

// Reads standard input into the front of `input`, as much as it holds.
pub fn read_input(rt: &impl Input, input: &mut [u8]) -> io::Result<usize>
    ensures { IfOk result (λ n. IsPrefixLen n input.new) }
{
    read_full(&mut rt.reader(), input)
}

// Reads the file at a path into the front of `bytes`, as much as they hold.
fn read_front(rt: &impl Files, path: &[u8], bytes: &mut [u8]) -> io::Result<usize>
    ensures { IfOk result (λ n. IsPrefixLen n bytes.new) }
{
    read_full(&mut File::open(rt, file_name(path)?)?, bytes)
}

// Reads the file at a path into the front of `bytes`, and answers its length; none if it has more bytes than these.
fn read_whole(rt: &impl Files, path: &[u8], bytes: &mut [u8]) -> io::Result<Option<usize>>
    ensures { IfOk result (λ size. Fits size bytes.new) }
{
    let mut file = File::open(rt, file_name(path)?)?;
    let size = read_full(&mut file, bytes)?;
    // One byte more: there is one if the file is too long.
    let mut more = [0u8; 1];
    if read_full(&mut file, &mut more)? > 0 {
        return Ok(None);
    }
    Ok(Some(size))
}

// Reads the file at a path, and answers its length; none if it was not read, and why is printed.
fn load(
    rt: &(impl Files + Print + Eprint),
    path: &[u8],
    bytes: &mut [u8],
) -> io::Result<Option<usize>>
    ensures fits { IfOk result (λ loaded. Fits loaded bytes.new) }
    ensures size { length bytes.new ≡ length bytes.old }
{
    match read_whole(rt, path, bytes) {
        Ok(Some(size)) => Ok(Some(size)),
        Ok(None) => {
            print_too_long(rt)?;
            Ok(None)
        }
        Err(why) => {
            tell(rt, path, why);
            Ok(None)
        }
    }
}

// Reads the file that an argument names into the front of `bytes`; one of more bytes than these is too long. An error
// is one of standard output: of the file there is no answer then.
pub fn load_argument(
    rt: &(impl Env + Files + Print + Eprint),
    i: usize,
    bytes: &mut [u8],
) -> io::Result<Option<usize>>
    ensures fits { IfOk result (λ loaded. Fits loaded bytes.new) }
    ensures size { length bytes.new ≡ length bytes.old }
{
    let mut path = [0u8; 4096];
    let n = argument(rt, i, &mut path);
    load(rt, &path[..n], bytes)
}

// For stored runs of many files: prints the name of the file that an argument names, and reads as many of its bytes as
// `input` holds. An error is one of standard output, as above.
pub fn load_named(
    rt: &(impl Env + Files + Print + Eprint),
    i: usize,
    input: &mut [u8],
) -> io::Result<Option<usize>>
    ensures fits { IfOk result (λ loaded. Fits loaded input.new) }
    ensures size { length input.new ≡ length input.old }
{
    let mut path = [0u8; 4096];
    let n = argument(rt, i, &mut path);
    match read_front(rt, &path[..n], input) {
        Ok(count) => {
            rt.write_all(&path[..n])?;
            rt.write_all(b":\n")?;
            Ok(Some(count))
        }
        Err(why) => {
            tell(rt, &path[..n], why);
            Ok(None)
        }
    }
}
