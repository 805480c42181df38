//! The words of the command line.
use crate::measure::Extent;
use std::env;
use std::rt::Env;

// The transactions of each thread where no word says how many.
const USUAL_TRANSACTIONS: u32 = 1_000;

/// The number of the workload that is asked for, or 0 where no word says which.
pub(crate) fn workload_asked_for<R: Env + AllocGlobal>(rt: &R) -> u32 {
    number_at(rt, 1, 0)
}

/// How much is asked for: 1 to 16 threads, and the transactions of each. One thread and 1,000 where no word says.
pub(crate) fn extent_asked_for<R: Env + AllocGlobal>(rt: &R) -> Extent {
    Extent {
        threads: number_at(rt, 2, 1).clamp(1, 16),
        transactions: number_at(rt, 3, USUAL_TRANSACTIONS),
        seed: u64::from(number_at(rt, 4, 1)),
    }
}

// The word at the place behind the program's own name as a number, else the usual one.
fn number_at<R: Env + AllocGlobal>(rt: &R, place: usize, usual: u32) -> u32 {
    let Ok(mut words) = env::args(rt) else {
        return usual;
    };
    match words.nth(place) {
        Some(word) => match word.as_str().parse::<u32>() {
            Ok(number) => number,
            Err(_) => usual,
        },
        None => usual,
    }
}
