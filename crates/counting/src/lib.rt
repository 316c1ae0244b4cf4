// Rounding up, the one place where the planner does it.
#![tactic(auto)]

ghost use Rattle.std.specs.Prelude.{◌≡◌, ◌<◌};
ghost use Rattle.counting.specs.Up.{up};

// x / d rounded up.
pub fn round_up(x: u64, d: u64) -> u64
    requires { 0 < d }
    ensures { result ≡ up x d }
{
    x.div_ceil(d)
}
