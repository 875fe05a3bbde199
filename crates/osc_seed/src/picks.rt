//! The harts that a seed picks.

ghost use Rattle.std.specs.Prelude.{◌≡◌, ◌<◌};
ghost use Rattle.osc_machine.specs.Picks.{next_seed, picked};

const MULTIPLIER: u64 = 6364136223846793005;

const INCREMENT: u64 = 1442695040888963407;

/// The lower bits of a seed repeat soon; those from this one on pick the hart.
const FIRST_BIT: u32 = 33;

/// The seed after this one.
#[inline(always)]
pub fn next_seed(seed: u64) -> u64
    ensures { result ≡ next_seed seed }
{
    seed.wrapping_mul(MULTIPLIER).wrapping_add(INCREMENT)
}

/// The hart among so many that a seed picks. One hart, and the four of a run that is told nothing, cost no
/// division.
#[inline(always)]
pub fn picked(harts: usize, seed: u64) -> usize
    requires { 0 < harts }
    ensures is { result ≡ picked harts seed }
    ensures below { result < harts }
{
    let high = (seed >> FIRST_BIT) as u32;
    match harts {
        1 => 0,
        4 => (high % 4) as usize,
        _ => (u64::from(high) % harts as u64) as usize,
    }
}
