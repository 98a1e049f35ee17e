// The flow walk and the bases, for the crates above: the lists are as long as each other and no longer than a read's,
// hence each `requires`.
ghost use Rattle.std.specs.Prelude.{◌≡◌, ◌+◌, ◌-◌, ◌≤◌, ◌<◌, length, drop};
ghost use Rattle.answers.specs.Answer.{answer_of};
ghost use Rattle.sff_format.specs.Rules.{base_matches, walked_count};
ghost use Rattle.sff_format.specs.ReadTest.{bases_test};

use crate::{BasePosition, FlowPosition};
use answers::{Cause, Refusal};

// The place among the increments of the first one, from base position `base` on, that breaks the walk after flow
// position `flow`; or their end. Both loops stay as they are: document 01 names the form, a loop over index bytes that
// yields by break the first offending byte place or the end, and a `for` yields nothing.
fn walk_stop(
    increments: &[u8],
    mut base: BasePosition,
    mut flow: FlowPosition,
    flows: usize,
) -> usize
    requires { (length increments.now < 4294967296) × (flows < 65536) × (1 ≤ base.0) × (base.0 ≤ length increments.now + 1) × (flow.0 ≤ flows) }
    ensures { result ≡ base.0 - 1 + walked_count flows flow.0 (drop (base.0 - 1) increments.now) }
{
    let bases = increments.len();
    loop {
        let k = base.0;
        if k > bases {
            break bases;
        }
        let next = flow.after(increments[k - 1]);
        if !next.within(flows) {
            break k - 1;
        }
        base = base.next();
        flow = next;
    }
}

// Whether a base may stand at a flow position.
#[tactic(auto, unfolding(sff_format::specs::Rules::base_matches))]
fn base_matches(characters: &[u8], flow: FlowPosition, base: u8) -> bool
    requires { (1 ≤ flow.0) × (flow.0 ≤ length characters.now) }
    ensures { result ≡ base_matches characters.now flow.0 base }
{
    (base == characters[flow.0 - 1]) | (base == b'N')
}

// The flow walk (10) and, in the same pass, the bases (11), to the place of the first base that breaks the walk or is
// not its flow's character, or the end. Any 10 comes before any 11, so behind a wrong base the rest of the walk is
// tested first. Places count from the first increment, as though the bases came after them.
pub fn bases_test(characters: &[u8], increments: &[u8], bases: &[u8]) -> Result<(), Refusal>
    requires { (length characters.now < 65536) × (length increments.now ≡ length bases.now) × (length bases.now < 4294967296) }
    ensures { answer_of result ≡ bases_test characters.now increments.now bases.now }
{
    let flows = characters.len();
    let count = increments.len();
    let mut base = BasePosition(1);
    let mut flow = FlowPosition(0);
    let stop = loop {
        let k = base.0;
        if k > count {
            break count;
        }
        flow = flow.after(increments[k - 1]);
        if !flow.within(flows) {
            break k - 1;
        }
        if !base_matches(characters, flow, bases[k - 1]) {
            break k - 1;
        }
        base = base.next();
    };
    if stop == count {
        return Ok(());
    }
    if !flow.within(flows) {
        return Err(Refusal(Cause::FlowWalk, stop));
    }
    let walk = walk_stop(increments, base.next(), flow, flows);
    if walk < count {
        return Err(Refusal(Cause::FlowWalk, walk));
    }
    Err(Refusal(Cause::Base, count + stop))
}
