//! The script.
ghost use Rattle.std.specs.Prelude.{◌≡◌, ◌≤◌, ◌*◌, IfOk, length};
ghost use Rattle.pe_generator.specs.Generated.{next_state, drawn, generated};

use crate::lines::put_line;
use std::alloc::{AllocError, Global};

/// The factor of the linear congruential generator.
const FACTOR: u64 = 6_364_136_223_846_793_005;

/// The increment of the linear congruential generator.
const INCREMENT: u64 = 1_442_695_040_888_963_407;

/// What is drawn is so many times smaller than the state: 2 to the power of 33.
const SHARE: u64 = 8_589_934_592;

/// The state after a state.
fn next_state(state: u64) -> u64
    ensures { result ≡ next_state state }
{
    state.wrapping_mul(FACTOR).wrapping_add(INCREMENT)
}

/// The script that the seed and the count make: so many lines, each of them an event. `AllocError` where
/// memory wants.
pub fn generate_script(alloc: Global, seed: u64, count: u32) -> Result<Vec<u8>, AllocError>
    requires low { 1 ≤ count }
    requires high { count ≤ 100000 }
    ensures script { IfOk result (λ script. script.items ≡ generated seed count) }

    // A line has at most 512 bytes.
    ensures short { IfOk result (λ script. length script.items ≤ 512 * count) }
{
    let mut script = Vec::new(alloc);
    let mut state = seed;
    let mut time: u64 = 0;
    for before in 0..count {
        state = next_state(state);
        let draw = state / SHARE;
        time += draw % 40;
        put_line(before, time, draw / 40, &mut script)?;
    }
    Ok(script)
}
