ghost use Rattle.std.specs.Prelude.{◌≡◌, ◌*◌, ◌^◌, ◌<◌, ◌≤◌, MatchOption};
ghost use Rattle.pcapng_blocks.specs.Times as times;

const NANOSECONDS: u64 = 1_000_000_000;

const MICROSECONDS: u64 = 1_000_000;

// The lowest powers of ten and of two that no time in nanoseconds reaches.
const MANY_DIGITS: u8 = 29;

const MANY_BITS: u8 = 128 + 94;

// Ten to this power.
fn power_of_ten(exponent: u8) -> u128
    requires { exponent < 29 }
    ensures { result ≡ 10 ^ exponent }
{
    let mut power = 1;
    for _ in 0..exponent {
        power *= 10;
    }
    power
}

// The units in a second, unless they are so many that a time is less than a nanosecond.
#[tactic(auto, unfolding(crate::specs::Times::units_per_second))]
fn units_per_second(resolution: u8) -> Option<u128>
    ensures { MatchOption result (2 ^ 94 ≤ times.units_per_second resolution) (λ units. (units ≡ times.units_per_second resolution) × (0 < units)) }
{
    if resolution < MANY_DIGITS {
        Some(power_of_ten(resolution))
    } else if resolution < 128 {
        None
    } else if resolution < MANY_BITS {
        Some(1 << (resolution - 128))
    } else {
        None
    }
}

// The seconds and the nanoseconds of a time, for any resolution.
fn split(resolution: u8, time: u64) -> (u32, u32)
    ensures seconds { result.0 ≡ times.seconds_of resolution time }
    ensures fraction { result.1 ≡ times.fraction_of resolution time }
{
    let Some(units) = units_per_second(resolution) else {
        return (0, 0);
    };
    let time = u128::from(time);
    let seconds = time / units % 4_294_967_296;
    let fraction = time % units * 1_000_000_000 / units;
    (seconds as u32, fraction as u32)
}

/// The whole seconds of a time and the rest in nanoseconds, by the resolution of its interface. Two
/// resolutions are usual: microseconds and nanoseconds.
pub fn seconds_and_nanoseconds(resolution: u8, time: u64) -> (u32, u32)
    ensures seconds { result.0 ≡ times.seconds_of resolution time }
    ensures fraction { result.1 ≡ times.fraction_of resolution time }
{
    match resolution {
        6 => {
            let seconds = time / MICROSECONDS % 4_294_967_296;
            (seconds as u32, (time % MICROSECONDS * 1000) as u32)
        }
        9 => {
            let seconds = time / NANOSECONDS % 4_294_967_296;
            (seconds as u32, (time % NANOSECONDS) as u32)
        }
        _ => split(resolution, time),
    }
}
