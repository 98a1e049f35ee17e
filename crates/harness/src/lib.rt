// C exports of the library's calls, for tests and benchmarks alone. No host calls them.

#![tactic(auto)]

ghost use Rattle.service_calls.specs.Outs.{Tested, Corrected};
ghost use Rattle.harness_files.specs.Outs.{FlowCharactersCopied, KeyCopied, ViewTested, StateMade, SteppedOn};
ghost use Rattle.harness_files.specs.Outs.{InsertCopied, SignalSummarised, FileMade, ReadAppended};
ghost use Rattle.harness_corrections.specs.Outs.{ListCorrected};
ghost use Rattle.harness_filters.specs.Outs.{Undone, LayerUndone, Encoded, SamplesFiltered};

use harness_corrections::correct_list_out;
use harness_files::{
    append_out, flow_characters_out, fresh_out, insert_out, key_out, new_out, signal_out, step_out,
    view_test_out,
};
use harness_filters::{encode_out, samples_out, undo_layer_out, undo_out};
use service_calls::{correct_out, test_out};

#[unsafe(no_mangle)]
pub extern "C" fn h_test(file: &[u8], place: &mut u64) -> u64
    ensures { Tested file.now result place.new }
{
    test_out(file, place)
}

// The characters go to the front of `out` if it has room for them all; if not it stays as it is. `made` is how many
// they are in either case.
#[unsafe(no_mangle)]
pub extern "C" fn h_flow_characters(
    file: &[u8],
    out: &mut [u8],
    place: &mut u64,
    made: &mut u64,
) -> u64
    ensures { FlowCharactersCopied file.now out.old
        result place.new made.new out.new }
{
    flow_characters_out(file, out, place, made)
}

// The same of the key.
#[unsafe(no_mangle)]
pub extern "C" fn h_key(file: &[u8], out: &mut [u8], place: &mut u64, made: &mut u64) -> u64
    ensures { KeyCopied file.now out.old result place.new made.new out.new }
{
    key_out(file, out, place, made)
}

// The view by its numbers: place and size of its name, values, increments, bases and qualities, then its clips in file
// order. What is not given is 0.
#[unsafe(no_mangle)]
pub extern "C" fn h_view_test(file: &[u8], view: &[u64], place: &mut u64) -> u64
    ensures { ViewTested file.now view.now result place.new }
{
    view_test_out(file, view, place)
}

// The state comes in and goes out by `at`, `passed` and `index_passed`; `place` is the refusal's, and the last four
// speak of the read.
#[unsafe(no_mangle)]
pub extern "C" fn h_step(
    file: &[u8],
    at: &mut u64,
    passed: &mut u64,
    index_passed: &mut u64,
    place: &mut u64,
    read_start: &mut u64,
    name_length: &mut u64,
    bases: &mut u64,
    clips: &mut u64,
) -> u64
    ensures { SteppedOn file.now at.old passed.old index_passed.old
        result at.new passed.new index_passed.new place.new
        read_start.new name_length.new bases.new clips.new }
{
    step_out(
        file,
        at,
        passed,
        index_passed,
        place,
        read_start,
        name_length,
        bases,
        clips,
    )
}

#[unsafe(no_mangle)]
pub extern "C" fn h_fresh(
    file: &[u8],
    at: &mut u64,
    passed: &mut u64,
    index_passed: &mut u64,
) -> u64
    ensures { StateMade file.now result at.new passed.new index_passed.new }
{
    fresh_out(file, at, passed, index_passed)
}

// The bases go to the front of `out` if it has room for them all; if not it stays as it is. `made` is how many they are
// in either case.
#[unsafe(no_mangle)]
pub extern "C" fn h_insert(
    file: &[u8],
    position: u64,
    out: &mut [u8],
    place: &mut u64,
    first: &mut u64,
    last: &mut u64,
    made: &mut u64,
) -> u64
    ensures { InsertCopied file.now position out.old
        result place.new first.new last.new made.new out.new }
{
    insert_out(file, position, out, place, first, last, made)
}

#[unsafe(no_mangle)]
pub extern "C" fn h_signal(
    file: &[u8],
    position: u64,
    strongest: &mut f64,
    weakest: &mut f64,
    mean: &mut f64,
    place: &mut u64,
) -> u64
    ensures { SignalSummarised file.now position
        result strongest.new weakest.new mean.new place.new }
{
    signal_out(file, position, strongest, weakest, mean, place)
}

// `length_after` is the file's length afterwards.
#[unsafe(no_mangle)]
pub extern "C" fn h_new(
    buffer: &mut [u8],
    flows: &[u8],
    key: &[u8],
    place: &mut u64,
    length_after: &mut u64,
) -> u64
    ensures { FileMade buffer.old flows.now key.now
        result place.new length_after.new buffer.new }
{
    new_out(buffer, flows, key, place, length_after)
}

#[unsafe(no_mangle)]
pub extern "C" fn h_append(
    buffer: &mut [u8],
    file_length: u64,
    name: &[u8],
    clips: u64,
    values: &[u16],
    increments: &[u8],
    bases: &[u8],
    qualities: &[u8],
    place: &mut u64,
    length_after: &mut u64,
) -> u64
    ensures { ReadAppended buffer.old file_length name.now clips
        values.now increments.now bases.now qualities.now
        result place.new length_after.new buffer.new }
{
    append_out(
        buffer,
        file_length,
        name,
        clips,
        values,
        increments,
        bases,
        qualities,
        place,
        length_after,
    )
}

#[unsafe(no_mangle)]
pub extern "C" fn h_correct(
    buffer: &mut [u8],
    file_length: u64,
    record: &[u8],
    place: &mut u64,
    length_after: &mut u64,
) -> u64
    ensures { Corrected buffer.old file_length «record».now
        result place.new length_after.new buffer.new }
{
    correct_out(buffer, file_length, record, place, length_after)
}

#[unsafe(no_mangle)]
pub extern "C" fn h_correct_list(
    buffer: &mut [u8],
    file_length: u64,
    list: &[u8],
    count: &mut u64,
    place: &mut u64,
    length_after: &mut u64,
) -> u64
    ensures { ListCorrected buffer.old file_length list.now
        result count.new place.new length_after.new buffer.new }
{
    correct_list_out(buffer, file_length, list, count, place, length_after)
}

#[unsafe(no_mangle)]
pub extern "C" fn h_undo(block: &[u8], first: &mut [u8], second: &mut [u8], made: &mut u64) -> u64
    ensures { Undone block.now first.old second.old
        result made.new first.new second.new }
{
    undo_out(block, first, second, made)
}

#[unsafe(no_mangle)]
pub extern "C" fn h_undo_layer(
    block: &[u8],
    first: &mut [u8],
    second: &mut [u8],
    made: &mut u64,
) -> u64
    ensures { LayerUndone block.now first.old second.old
        result made.new first.new second.new }
{
    undo_layer_out(block, first, second, made)
}

#[unsafe(no_mangle)]
pub extern "C" fn h_encode(
    format: u64,
    level: u64,
    follow: &[u8],
    source: &[u8],
    out: &mut [u8],
    made: &mut u64,
) -> u64
    ensures { Encoded format level follow.now source.now out.old
        result made.new out.new }
{
    encode_out(format, level, follow, source, out, made)
}

// Encodes where `undone` is 0, and else undoes.
#[unsafe(no_mangle)]
pub extern "C" fn h_scf(
    precision: u64,
    undone: u64,
    source: &[u8],
    out: &mut [u8],
    made: &mut u64,
) -> u64
    ensures { SamplesFiltered precision undone source.now out.old result made.new out.new }
{
    samples_out(precision, undone, source, out, made)
}
