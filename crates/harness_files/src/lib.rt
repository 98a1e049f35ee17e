// The calls on files with what they answer copied out, as `harness` exports them.

#![tactic(auto)]

ghost use Rattle.std.specs.Prelude.{◌≡◌, get_or};
ghost use Rattle.answers.specs.Causes.{number};
ghost use Rattle.sff_format.specs.Step.{step, found, stop};
ghost use Rattle.sff_reader.specs.Forms.{state_of};
ghost use Rattle.harness_files.specs.Outs.{flag, span_from, view_from, view_clips, ClipsFit, stepped_of, put_front, clips_from};
ghost use Rattle.harness_files.specs.Outs.{FlowCharactersCopied, KeyCopied, ViewTested, StateMade, SteppedOn};
ghost use Rattle.harness_files.specs.Outs.{InsertCopied, SignalSummarised, FileMade, ReadAppended};

use answers::{Refusal, number_of, place_of};
use buffers::inner::copy;
use sff_find::position_test;
use sff_format::{Clips, ReadView, Span};
use sff_header::{flow_characters, header_test, key};
use sff_insert::{insert, insert_ends};
use sff_reader::{Found, Reader, Stopped};
use sff_sections::NewRead;
use sff_signal::{signal, signal_test};
use sff_view::view_test;
use sff_writer::{append, new_file};

// What a step leaves, as numbers.
#[derive(Clone, Copy)]
struct Stepped {
    number: u64,
    place: u64,
    at: u64,
    passed: u64,
    index_passed: u64,
    read_start: u64,
    name_length: u64,
    bases: u64,
    clips: u64,
}

fn flag_of(x: bool) -> u64
    ensures { result ≡ flag x }
{
    u64::from(x)
}

fn clips_of(view: ReadView) -> u64
    requires { ClipsFit view }
    ensures { result ≡ view_clips view }
{
    let quality = view.quality_left * 65536 + view.quality_right;
    let adapter = view.adapter_left * 65536 + view.adapter_right;
    (quality * 4294967296 + adapter) as u64
}

#[tactic(auto, unfolding(crate::specs::Outs::stepped_of))]
fn read_found(view: ReadView, next: Reader) -> Stepped
    requires { ClipsFit view }
    ensures { result ≡ stepped_of (found view (state_of next)) }
{
    Stepped {
        number: 0,
        place: 0,
        at: next.place as u64,
        passed: next.passed_reads as u64,
        index_passed: flag_of(next.passed_index),
        read_start: view.place as u64,
        name_length: view.name.size as u64,
        bases: view.bases.size as u64,
        clips: clips_of(view),
    }
}

#[tactic(auto, unfolding(crate::specs::Outs::stepped_of))]
fn read_refused(refusal: Refusal, unmoved: Reader) -> Stepped
    ensures { result ≡ stepped_of (stop (number refusal.0) refusal.1 (state_of unmoved)) }
{
    let Refusal(cause, place) = refusal;
    Stepped {
        number: cause.number(),
        place: place as u64,
        at: unmoved.place as u64,
        passed: unmoved.passed_reads as u64,
        index_passed: flag_of(unmoved.passed_index),
        read_start: 0,
        name_length: 0,
        bases: 0,
        clips: 0,
    }
}

fn step_on(file: &[u8], reader: Reader) -> Stepped
    ensures { result ≡ stepped_of (step file.now (state_of reader)) }
{
    match reader.step(file) {
        Ok(Found { view, next }) => read_found(view, next),
        Err(Stopped { refusal, unmoved }) => read_refused(refusal, unmoved),
    }
}

pub fn fresh_out(file: &[u8], at: &mut u64, passed: &mut u64, index_passed: &mut u64) -> u64
    ensures { StateMade file.now result at.new passed.new index_passed.new }
{
    let reader = Reader::fresh(file);
    *at = reader.place as u64;
    *passed = reader.passed_reads as u64;
    *index_passed = flag_of(reader.passed_index);
    0
}

// The state comes in and goes out by `at`, `passed` and `index_passed`; `place` is the refusal's, and the last four
// speak of the read.
pub fn step_out(
    file: &[u8],
    at: &mut u64,
    passed: &mut u64,
    index_passed: &mut u64,
    place: &mut u64,
    read_start: &mut u64,
    name_length: &mut u64,
    bases: &mut u64,
    clips: &mut u64,
) -> u64
    ensures { SteppedOn file.now at.old passed.old index_passed.old
        result at.new passed.new index_passed.new place.new
        read_start.new name_length.new bases.new clips.new }
{
    let reader = Reader {
        place: *at as usize,
        passed_reads: *passed as usize,
        passed_index: *index_passed != 0,
    };
    let step = step_on(file, reader);
    *at = step.at;
    *passed = step.passed;
    *index_passed = step.index_passed;
    *place = step.place;
    *read_start = step.read_start;
    *name_length = step.name_length;
    *bases = step.bases;
    *clips = step.clips;
    step.number
}

fn put_front(out: &mut [u8], bytes: &[u8])
    ensures { out.new ≡ put_front bytes.now out.old }
{
    let n = bytes.len();
    if out.len() < n {
        return;
    }
    copy(out, 0, bytes, 0, n);
}

fn clips_from(x: u64) -> Clips
    ensures { result ≡ clips_from x }
{
    Clips {
        quality_left: (x / 281474976710656 % 65536) as u16,
        quality_right: (x / 4294967296 % 65536) as u16,
        adapter_left: (x / 65536 % 65536) as u16,
        adapter_right: (x % 65536) as u16,
    }
}

// The characters go to the front of `out` if it has room for them all; if not it stays as it is. `made` is how many
// they are in either case.
pub fn flow_characters_out(file: &[u8], out: &mut [u8], place: &mut u64, made: &mut u64) -> u64
    ensures { FlowCharactersCopied file.now out.old
        result place.new made.new out.new }
{
    let answer = header_test(file);
    let flows = flow_characters(file);
    *place = place_of(answer);
    *made = flows.len() as u64;
    put_front(out, flows);
    number_of(answer)
}

// The same of the key.
pub fn key_out(file: &[u8], out: &mut [u8], place: &mut u64, made: &mut u64) -> u64
    ensures { KeyCopied file.now out.old result place.new made.new out.new }
{
    let answer = header_test(file);
    let characters = key(file);
    *place = place_of(answer);
    *made = characters.len() as u64;
    put_front(out, characters);
    number_of(answer)
}

fn number_at(numbers: &[u64], i: usize) -> usize
    ensures { result ≡ get_or numbers.now i 0 }
{
    if i < numbers.len() {
        numbers[i] as usize
    } else {
        0
    }
}

fn span_from(numbers: &[u64], at: usize, size: usize) -> Span
    ensures { result ≡ span_from numbers.now at size }
{
    Span {
        at: number_at(numbers, at),
        size: number_at(numbers, size),
    }
}

#[tactic(auto, unfolding(crate::specs::Outs::view_from))]
fn view_from(numbers: &[u64]) -> ReadView
    ensures { result ≡ view_from numbers.now }
{
    ReadView {
        place: 0,
        name: span_from(numbers, 0, 1),
        values: span_from(numbers, 2, 3),
        increments: span_from(numbers, 4, 5),
        bases: span_from(numbers, 6, 7),
        qualities: span_from(numbers, 8, 9),
        quality_left: number_at(numbers, 10),
        quality_right: number_at(numbers, 11),
        adapter_left: number_at(numbers, 12),
        adapter_right: number_at(numbers, 13),
    }
}

// The view by its numbers, as `view_from` has them.
pub fn view_test_out(file: &[u8], view: &[u64], place: &mut u64) -> u64
    ensures { ViewTested file.now view.now result place.new }
{
    let answer = view_test(view_from(view), file);
    *place = place_of(answer);
    number_of(answer)
}

// The bases go to the front of `out` if it has room for them all; if not it stays as it is. `made` is how many they are
// in either case.
pub fn insert_out(
    file: &[u8],
    position: u64,
    out: &mut [u8],
    place: &mut u64,
    first: &mut u64,
    last: &mut u64,
    made: &mut u64,
) -> u64
    ensures { InsertCopied file.now position out.old
        result place.new first.new last.new made.new out.new }
{
    let at = position as usize;
    let answer = position_test(file, at);
    let ends = insert_ends(file, at);
    let bases = insert(file, at);
    *place = place_of(answer);
    *first = ends.first.0 as u64;
    *last = ends.last.0 as u64;
    *made = bases.len() as u64;
    put_front(out, bases);
    number_of(answer)
}

pub fn signal_out(
    file: &[u8],
    position: u64,
    strongest: &mut f64,
    weakest: &mut f64,
    mean: &mut f64,
    place: &mut u64,
) -> u64
    ensures { SignalSummarised file.now position
        result strongest.new weakest.new mean.new place.new }
{
    let at = position as usize;
    let answer = signal_test(file, at);
    let summary = signal(file, at);
    *place = place_of(answer);
    *strongest = summary.strongest;
    *weakest = summary.weakest;
    *mean = summary.mean;
    number_of(answer)
}

// `length_after` is the file's length afterwards.
pub fn new_out(
    buffer: &mut [u8],
    flows: &[u8],
    key: &[u8],
    place: &mut u64,
    length_after: &mut u64,
) -> u64
    ensures { FileMade buffer.old flows.now key.now
        result place.new length_after.new buffer.new }
{
    let outcome = new_file(buffer, flows, key);
    let answer = outcome.map_err(|not_done| not_done.refusal);
    *place = place_of(answer);
    *length_after = outcome.unwrap_or_else(|not_done| not_done.length) as u64;
    number_of(answer)
}

pub fn append_out(
    buffer: &mut [u8],
    file_length: u64,
    name: &[u8],
    clips: u64,
    values: &[u16],
    increments: &[u8],
    bases: &[u8],
    qualities: &[u8],
    place: &mut u64,
    length_after: &mut u64,
) -> u64
    ensures { ReadAppended buffer.old file_length name.now clips
        values.now increments.now bases.now qualities.now
        result place.new length_after.new buffer.new }
{
    let read = NewRead {
        name,
        clips: clips_from(clips),
        values,
        increments,
        bases,
        qualities,
    };
    let outcome = append(buffer, file_length as usize, &read);
    let answer = outcome.map_err(|not_done| not_done.refusal);
    *place = place_of(answer);
    *length_after = outcome.unwrap_or_else(|not_done| not_done.length) as u64;
    number_of(answer)
}
