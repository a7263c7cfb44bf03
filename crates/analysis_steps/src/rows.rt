// The step of an arithmetic row.
ghost use Rattle.std.specs.Prelude.{◌≡◌, cond};
ghost use Rattle.rules_steps.specs.Joins.{still};
ghost use Rattle.rules.specs.Steps.{change_step};
ghost use Rattle.rules.specs.Bounds.{FineChange};

use rules::Change;
use rules_steps::Step;

// The step, or the standing step.
pub fn only(moves: bool, step: Step) -> Step
    ensures { result ≡ cond moves step still }
{
    if moves { step } else { Step::STILL }
}

// The step of an arithmetic row.
#[tactic(auto, unfolding(rules::specs::Steps::change_step))]
pub fn change_step(change: Change) -> Step
    requires { FineChange change }
    ensures { result ≡ change_step change }
{
    match change {
        Change::Add(c) => {
            let x = i64::from(c);
            Step::Add(x, x)
        }
        Change::Sub(c) => {
            let x = -i64::from(c);
            Step::Add(x, x)
        }
        Change::Mul(1) | Change::Div(1) => Step::STILL,
        Change::Mul(c) => {
            let f = u64::from(c);
            Step::Grow(f, f)
        }
        Change::Div(c) => {
            let f = u64::from(c);
            Step::Shrink(f, f)
        }
    }
}
