// The filters' calls with what they answer copied out, as `harness` exports them.

#![tactic(auto)]

ghost use Rattle.std.specs.Prelude.{◌≡◌, length};
ghost use Rattle.filter_format.specs.Undo.{filtered};
ghost use Rattle.filter_format.specs.Made.{filtered_of};
ghost use Rattle.filter_format.specs.Encode.{out_after};
ghost use Rattle.harness_filters.specs.Samples.{samples};
ghost use Rattle.harness_filters.specs.Outs.{Undone, LayerUndone, Encoded, SamplesFiltered};

use answers::{Refusal, number_of};
use filter_encode::encode;
use filter_undo::{undo, undo_layer};
use scf_samples::{encode_samples, undo_samples};

pub fn undo_out(block: &[u8], first: &mut [u8], second: &mut [u8], made: &mut u64) -> u64
    ensures { Undone block.now first.old second.old
        result made.new first.new second.new }
{
    let filtered = undo(block, first, second);
    *made = filtered.unwrap_or(0) as u64;
    number_of(filtered)
}

pub fn undo_layer_out(block: &[u8], first: &mut [u8], second: &mut [u8], made: &mut u64) -> u64
    ensures { LayerUndone block.now first.old second.old
        result made.new first.new second.new }
{
    let filtered = undo_layer(block, first, second);
    *made = filtered.unwrap_or(0) as u64;
    number_of(filtered)
}

pub fn encode_out(
    format: u64,
    level: u64,
    follow: &[u8],
    source: &[u8],
    out: &mut [u8],
    made: &mut u64,
) -> u64
    ensures { Encoded format level follow.now source.now out.old
        result made.new out.new }
{
    let filtered = encode(format as usize, level as usize, follow, source, out);
    *made = filtered.unwrap_or(0) as u64;
    number_of(filtered)
}

// Encodes where `undone` is 0, and else undoes.
pub fn samples_out(
    precision: u64,
    undone: u64,
    source: &[u8],
    out: &mut [u8],
    made: &mut u64,
) -> u64
    ensures { SamplesFiltered precision undone source.now out.old result made.new out.new }
{
    let filtered = samples_either(precision as usize, undone, source, out);
    *made = filtered.unwrap_or(0) as u64;
    number_of(filtered)
}

#[tactic(auto, unfolding(crate::specs::Samples::samples))]
fn samples_either(
    precision: usize,
    undone: u64,
    source: &[u8],
    out: &mut [u8],
) -> Result<usize, Refusal>
    ensures value { filtered_of result ≡ filtered (samples undone (length out.old) precision source.now) }
    ensures out_after { out.new ≡ out_after (samples undone (length out.old) precision source.now) out.old }
{
    if undone == 0 {
        return encode_samples(precision, source, out);
    }
    undo_samples(precision, source, out)
}
