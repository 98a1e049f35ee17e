// Base and flow positions, the flow walk, and the test of bases.

#![tactic(auto)]

ghost use Rattle.std.specs.Prelude.{◌≡◌, ◌+◌, ◌<◌};
ghost use Rattle.sff_format.specs.Rules.{is_flow};

pub mod inner;

// Positions over a read's bases and over a file's flows. Both count from 1; neither is ever made from the other.

// A base of a read; 0 is before the first, and as a clip "not computed".
#[derive(Clone, Copy, Debug, PartialEq, PartialOrd)]
pub struct BasePosition(pub usize);

// A flow of a file; 0 is before the first.
#[derive(Clone, Copy)]
pub struct FlowPosition(pub usize);

impl BasePosition {
    fn next(self) -> Self
        requires { self.0 < 4294967296 }
        ensures { result.0 ≡ self.0 + 1 }
    {
        BasePosition(self.0 + 1)
    }
}

impl FlowPosition {
    // The flow position of the next base: index bytes are increments.
    fn after(self, increment: u8) -> Self
        requires { self.0 < 65536 }
        ensures { result.0 ≡ self.0 + increment }
    {
        FlowPosition(self.0 + increment as usize)
    }

    #[tactic(auto, unfolding(sff_format::specs::Rules::is_flow))]
    fn within(self, flows: usize) -> bool
        ensures { result ≡ is_flow flows self.0 }
    {
        (1..=flows).contains(&self.0)
    }
}
