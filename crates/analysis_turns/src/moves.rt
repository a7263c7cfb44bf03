// The figure of an Add step under < <= > >=, by the moves of RR-2008-3, sections 3.1 and 3.2.
ghost use Rattle.std.specs.Prelude.{◌≡◌, pos, ◌≤ℤ◌};
ghost use Rattle.rules_steps.specs.Ends.{Near};
ghost use Rattle.rules.specs.Turns.{turned_up, from_zero, by_one, turns_to, climb};

use rules::AddLoop;
use values::floor;

// Section 3.2, "from increment - value to increment + value": for (i = sup; i >= inf; i -= dec) becomes for (i = inf; i <= sup; i += dec).
pub fn turned_up(l: AddLoop) -> AddLoop
    requires { Near 1024 l.step }
    ensures { result ≡ turned_up l }
{
    AddLoop {
        start: l.limit,
        limit: l.start,
        step: -l.step,
    }
}

// Section 3.1, "starting the initial value at 0": for (i = k; i <= n; i += c) becomes for (i = 0; i <= n - k; i += c).
fn from_zero(l: AddLoop) -> AddLoop
    requires { Near 4_000_000 l.start × Near 4_000_000 l.limit }
    ensures { result ≡ from_zero l }
{
    AddLoop {
        start: 0,
        limit: l.limit - l.start,
        step: l.step,
    }
}

// Section 3.1, "transforming the increment": for (i = 0; i <= n; i += c) becomes for (i = 0; i <= n / c; i++), n / c rounded down.
fn by_one(l: AddLoop) -> AddLoop
    requires { Near 1024 l.step × (pos 1 ≤ℤ l.step) }
    ensures { result ≡ by_one l }
{
    AddLoop {
        start: 0,
        limit: floor(l.limit, l.step as u64),
        step: 1,
    }
}

// Its "nombreIT": the turns of for (i = 0; i <= n; i++).
fn turns_to(n: i64) -> u64
    ensures { result ≡ turns_to n }
{
    if n < 0 { 0 } else { n as u64 + 1 }
}

// Add rising: the start to zero, then the step divided away.
#[tactic(auto, unfolding(rules::specs::Turns::climb))]
pub fn climb(l: AddLoop) -> u64
    requires { Near 4_000_000 l.start × Near 4_000_000 l.limit × Near 1024 l.step × (pos 1 ≤ℤ l.step) }
    ensures { result ≡ climb l }
{
    turns_to(by_one(from_zero(l)).limit)
}
