//! What the callers of a book call.
ghost use Rattle.std.specs.Prelude.{◌<◌};

/// One of the design's two nets.
#[derive(Clone, Copy)]
pub(crate) enum Which {
    A,
    B,
}

impl Which {
    pub(crate) fn number(self) -> u32
        ensures { result < 2 }
    {
        match self {
            Which::A => 0,
            Which::B => 1,
        }
    }
}

/// A call. A claim is for the tree of the two tiles, with this slack.
#[derive(Clone, Copy)]
pub(crate) enum Step {
    Claim(Which, Option<u32>),
    Release(Which),
    Mark,
}

impl Step {
    /// What is printed of it.
    pub(crate) fn told(self) -> &'static str {
        match self {
            Step::Claim(Which::A, _) => "claims a",
            Step::Claim(Which::B, _) => "claims b",
            Step::Release(Which::A) => "releases a",
            Step::Release(Which::B) => "releases b",
            Step::Mark => "marks",
        }
    }
}
