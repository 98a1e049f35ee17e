// For the crates above: each filter comes from a format byte, and a block is undone only after its tests, hence each
// `requires`.
ghost use Rattle.std.specs.Prelude.{◌≡◌, ◌*◌, ◌<◌, ◌≤◌, ltb, length};
ghost use Rattle.answers.specs.Answer.{when, answer_of};
ghost use Rattle.filter_format.specs.declared.Filter.TheVariants.{Raw, Delta, Narrow, Follow};
ghost use Rattle.filter_format.specs.Units.{IsWidth};
ghost use Rattle.filter_format.specs.Block.{filter_of, HasUnitWidth, filter_at, is_raw, is_filter, header_length, bad_level, bad_header, undone, contents_test};
ghost use Rattle.filter_block.specs.Tests.{data_test, Undoable};
ghost use Rattle.octets.specs.Parts.{put_at};

use answers::{Cause, Refusal};
use buffers::inner::copy;
use filter_delta::inner::put_undelta;
use filter_follow::inner::put_unfollowed;
use filter_format::Filter;
use filter_narrow::inner::{count_units, put_widened};
use octets::ByteTest;
use octets::inner::first_not;

// What a format stands for.
#[tactic(auto, unfolding(filter_format::specs::Block::filter_of))]
pub fn filter_of(format: usize) -> Filter
    ensures { result ≡ filter_of format }
{
    match format {
        0 => Filter::Raw,
        64 => Filter::Delta(1),
        65 => Filter::Delta(2),
        66 => Filter::Delta(4),
        70 => Filter::Narrow(2),
        71 => Filter::Narrow(4),
        72 => Filter::Follow,
        _ => Filter::Other,
    }
}

// What the first byte of a block says; an empty one is refused before it matters.
pub fn filter_at(block: &[u8]) -> Filter
    ensures { result ≡ filter_at block.now }
{
    filter_of(block.first().map_or(0, |format| usize::from(*format)))
}

pub fn is_raw(filter: Filter) -> bool
    ensures { result ≡ is_raw filter }
{
    matches!(filter, Filter::Raw)
}

pub fn is_filter(filter: Filter) -> bool
    ensures { result ≡ is_filter filter }
{
    matches!(
        filter,
        Filter::Delta(_) | Filter::Narrow(_) | Filter::Follow
    )
}

// Where the data begin.
#[tactic(auto, unfolding(filter_format::specs::Block::header_length))]
pub fn header_length(filter: Filter) -> usize
    ensures { (result ≡ header_length filter) × (result ≤ 257) }
{
    match filter {
        Filter::Delta(4) => 4,
        Filter::Delta(_) => 2,
        Filter::Follow => 257,
        _ => 1,
    }
}

pub fn bad_level(level: usize) -> bool
    ensures { result ≡ bad_level level }
{
    !(1..=3).contains(&level)
}

// Whether the level or the zeros behind it are wrong.
fn bad_delta_header(block: &[u8], width: usize) -> bool
    requires { header_length (Delta width) ≤ length block.now }
    ensures { result ≡ bad_header (Delta width) block.now }
{
    let start = header_length(Filter::Delta(width));
    bad_level(usize::from(block[1])) || first_not(ByteTest::Zero, block, 2, start) < start
}

#[tactic(auto, unfolding(filter_format::specs::Block::bad_header))]
fn bad_header(filter: Filter, block: &[u8]) -> bool
    requires { header_length filter ≤ length block.now }
    ensures { result ≡ bad_header filter block.now }
{
    match filter {
        Filter::Delta(width) => bad_delta_header(block, width),
        _ => false,
    }
}

fn room_test(n: usize, room: usize) -> Result<(), Refusal>
    ensures { answer_of result ≡ when (ltb room n) 26 0 }
{
    if room < n {
        return Err(Refusal(Cause::NoRoom, 0));
    }
    Ok(())
}

fn delta_test(block: &[u8], width: usize, room: usize) -> Result<(), Refusal>
    requires { (IsWidth width) × (header_length (Delta width) ≤ length block.now) }
    ensures { answer_of result ≡ data_test (Delta width) room block.now }
{
    let n = block.len() - header_length(Filter::Delta(width));
    if n % width != 0 {
        return Err(Refusal(Cause::Units, 0));
    }
    room_test(n, room)
}

// The units are counted, not their bytes, whose number could exceed 64 bits.
fn narrow_test(block: &[u8], width: usize, room: usize) -> Result<(), Refusal>
    requires { (0 < width) × (1 ≤ length block.now) }
    ensures { answer_of result ≡ data_test (Narrow width) room block.now }
{
    match count_units(&block[1..], width) {
        None => Err(Refusal(Cause::Units, 0)),
        Some(n) => units_room_test(n, width, room),
    }
}

fn units_room_test(n: usize, width: usize, room: usize) -> Result<(), Refusal>
    requires { 0 < width }
    ensures { answer_of result ≡ when (ltb room (n * width)) 26 0 }
{
    if room / width < n {
        return Err(Refusal(Cause::NoRoom, 0));
    }
    Ok(())
}

// The tests of the data and of the room.
fn data_test(filter: Filter, block: &[u8], room: usize) -> Result<(), Refusal>
    requires { (HasUnitWidth filter) × (header_length filter ≤ length block.now) }
    ensures { answer_of result ≡ data_test filter room block.now }
{
    match filter {
        Filter::Raw => room_test(block.len() - 1, room),
        Filter::Delta(width) => delta_test(block, width, room),
        Filter::Narrow(width) => narrow_test(block, width, room),
        Filter::Follow => room_test(block.len() - 257, room),
        Filter::Other => Ok(()),
    }
}

// The tests of a block that has a format byte, from its header on.
pub fn contents_test(filter: Filter, block: &[u8], room: usize) -> Result<(), Refusal>
    requires { HasUnitWidth filter }
    ensures { answer_of result ≡ contents_test filter room block.now }
{
    if block.len() < header_length(filter) {
        return Err(Refusal(Cause::BlockCutShort, 0));
    }
    if bad_header(filter, block) {
        return Err(Refusal(Cause::BlockHeader, 0));
    }
    data_test(filter, block, room)
}

fn undo_raw(out: &mut [u8], block: &[u8]) -> usize
    requires { Undoable Raw block.now (length out.old) }
    ensures { (result ≡ length (undone Raw block.now)) × (out.new ≡ put_at 0 (undone Raw block.now) out.old) }
{
    let n = block.len() - 1;
    copy(out, 0, block, 1, n);
    n
}

fn undo_delta(out: &mut [u8], block: &[u8], width: usize) -> usize
    requires { Undoable (Delta width) block.now (length out.old) }
    ensures { (result ≡ length (undone (Delta width) block.now)) × (out.new ≡ put_at 0 (undone (Delta width) block.now) out.old) }
{
    let data = &block[header_length(Filter::Delta(width))..];
    let level = usize::from(block[1]);
    match width {
        1 => put_undelta::<u8>(out, 0, data, level),
        2 => put_undelta::<u16>(out, 0, data, level),
        _ => put_undelta::<u32>(out, 0, data, level),
    }
    data.len()
}

fn undo_narrow(out: &mut [u8], block: &[u8], width: usize) -> usize
    requires { Undoable (Narrow width) block.now (length out.old) }
    ensures { (result ≡ length (undone (Narrow width) block.now)) × (out.new ≡ put_at 0 (undone (Narrow width) block.now) out.old) }
{
    let data = &block[1..];
    match width {
        2 => put_widened::<u16>(out, data),
        _ => put_widened::<u32>(out, data),
    }
}

fn undo_follow(out: &mut [u8], block: &[u8]) -> usize
    requires { Undoable Follow block.now (length out.old) }
    ensures { (result ≡ length (undone Follow block.now)) × (out.new ≡ put_at 0 (undone Follow block.now) out.old) }
{
    put_unfollowed(out, &block[257..], &block[1..257]);
    block.len() - 257
}

// A block that passed its tests, its filter undone, at the front of `out`; answers how many bytes that makes.
pub fn undo_filter(out: &mut [u8], filter: Filter, block: &[u8]) -> usize
    requires { Undoable filter block.now (length out.old) }
    ensures { (result ≡ length (undone filter block.now)) × (out.new ≡ put_at 0 (undone filter block.now) out.old) }
{
    match filter {
        Filter::Raw => undo_raw(out, block),
        Filter::Delta(width) => undo_delta(out, block, width),
        Filter::Narrow(width) => undo_narrow(out, block, width),
        Filter::Follow => undo_follow(out, block),
        Filter::Other => 0,
    }
}
