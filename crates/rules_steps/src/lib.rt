// The step of a variable, and two steps joined: in sequence, or over a pick.
#![tactic(auto)]

ghost use Rattle.std.specs.Prelude.{◌≡◌, ◌≤◌};
ghost use Rattle.rules_steps.specs.Joins.{factor_limit, product, then, either};
ghost use Rattle.rules_steps.specs.Ends.{EndsWithin};

// How a variable moves in one turn: the least and the most change, a factor, a divisor, or not known.
#[derive(Clone, Copy, Debug, PartialEq, Eq)]
pub enum Step {
    Add(i64, i64),
    Grow(u64, u64),
    Shrink(u64, u64),
    Unknown,
}

impl Step {
    // Add[0,0], the standing step.
    pub const STILL: Step = Step::Add(0, 0);

    // This step and then the next. The standing step beside Grow or Shrink is neutral.
    #[tactic(auto, unfolding(crate::specs::Joins::then), using(ints::proofs::Parts::signed))]
    pub fn then(self, next: Step) -> Step
        requires { EndsWithin 512 self × EndsWithin 512 next }
        ensures { result ≡ then self next }
    {
        match (self, next) {
            (Step::Add(a, b), Step::Add(c, d)) => Step::Add(a + c, b + d),
            (Step::Grow(f, g), Step::Grow(h, k)) => Step::Grow(product(f, h), product(g, k)),
            (Step::Shrink(f, g), Step::Shrink(h, k)) => Step::Shrink(product(f, h), product(g, k)),
            (_, Step::Unknown) => Step::Unknown,
            (Step::STILL, step) | (step, Step::STILL) => step,
            _ => Step::Unknown,
        }
    }

    // This step or the other one. The standing step beside Grow or Shrink is factor 1.
    #[tactic(auto, unfolding(crate::specs::Joins::either), using(ints::proofs::Parts::signed))]
    pub fn either(self, other: Step) -> Step
        ensures { result ≡ either self other }
    {
        match (self, other) {
            (Step::Add(a, b), Step::Add(c, d)) => Step::Add(a.min(c), b.max(d)),
            (Step::Grow(f, g), Step::Grow(h, k)) => Step::Grow(f.min(h), g.max(k)),
            (Step::Shrink(f, g), Step::Shrink(h, k)) => Step::Shrink(f.min(h), g.max(k)),
            (Step::STILL, Step::Grow(f, g)) => Step::Grow(f.min(1), g.max(1)),
            (Step::Grow(f, g), Step::STILL) => Step::Grow(f.min(1), g.max(1)),
            (Step::STILL, Step::Shrink(f, g)) => Step::Shrink(f.min(1), g.max(1)),
            (Step::Shrink(f, g), Step::STILL) => Step::Shrink(f.min(1), g.max(1)),
            _ => Step::Unknown,
        }
    }
}

// A factor above this number counts as this number.
const CAP: u64 = 2_000_000_001;

// The product of two factors.
#[tactic(auto, unfolding(crate::specs::Joins::product, crate::specs::Joins::factor_limit))]
fn product(f: u64, g: u64) -> u64
    requires { (f ≤ factor_limit) × (g ≤ factor_limit) }
    ensures { result ≡ product f g }
{
    CAP.min(f * g)
}
