//! The points that are judged from the group and the tables alone.
ghost use Rattle.std.specs.Prelude.{◌≡◌};
ghost use Rattle.desk_feasible.specs.Broken.{verdict_of, refusal_of};

use desk_base::{LeafNo, LeafRule, Minute, Refusal, ResourceId, Verdict};

/// The first point that a start and picks break, of those before part-of-same and room.
#[derive(Clone, Copy, Debug)]
pub enum Broken {
    /// The start is not on the grid.
    OffGrid,
    /// The first leaf that lacks a pick, or with whose pick the picks begin no pattern of the tree.
    BadShape(LeafNo),
    /// The first chosen leaf whose resource breaks one of its rules, the resource, and the first such rule.
    NotEligible(LeafNo, ResourceId, LeafRule),
}

impl Broken {
    /// The point as a verdict.
    pub fn verdict(self) -> Verdict
        ensures { result ≡ verdict_of self }
    {
        match self {
            Broken::OffGrid => Verdict::OffGrid,
            Broken::BadShape(leaf) => Verdict::BadShape(leaf),
            Broken::NotEligible(leaf, resource, rule) => {
                Verdict::NotEligible(leaf, resource, rule)
            }
        }
    }

    /// The point as the refusal of a booking from this start on.
    pub fn refusal(self, start: Minute) -> Refusal
        ensures { result ≡ refusal_of start self }
    {
        match self {
            Broken::OffGrid => Refusal::OffGrid(start),
            Broken::BadShape(leaf) => Refusal::BadShape(leaf),
            Broken::NotEligible(leaf, resource, rule) => {
                Refusal::NotEligible(leaf, resource, rule)
            }
        }
    }
}
