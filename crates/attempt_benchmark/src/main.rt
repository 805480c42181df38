//! Runs one attempt that reads and writes as many cells as its words say, so that the instructions of an attempt can be
//! counted at several sizes.
#![tactic(auto)]

ghost use Rattle.std.specs.Prelude.{◌<◌, ◌≤◌, ◌^◌};

mod attempt;

use attempt::Size;
use std::env;
use std::process::ExitCode;
use std::rt::Env;

// The cells of the table where no word says how many.
const USUAL_CELLS: u32 = 1_000;

// The word at the place behind the program's own name as a number, else the usual one.
fn number_at<R: Env + AllocGlobal>(rt: &R, place: usize, usual: u32) -> u32 {
    let Ok(mut words) = env::args(rt) else {
        return usual;
    };
    match words.nth(place) {
        Some(word) => match word.as_str().parse::<u32>() {
            Ok(number) => number,
            Err(_) => usual,
        },
        None => usual,
    }
}

// The size that the words ask for: a table of 1 to 2^24 cells, how many are read, and how many of these are written. All are
// where no word says.
fn size_asked_for<R: Env + AllocGlobal>(rt: &R) -> Size
    ensures { (0 < result.cells) × (result.cells ≤ 2 ^ 24) }
{
    let cells = number_at(rt, 1, USUAL_CELLS).clamp(1, 1 << 24);
    let reads = number_at(rt, 2, cells);
    let writes = number_at(rt, 3, reads);
    Size {
        cells,
        reads,
        writes,
    }
}

fn main(rt: HostRuntime) -> ExitCode {
    let size = size_asked_for(&rt);
    match attempt::commit_all(rt.alloc(), size) {
        Ok(done) => {
            let (cells, version, last) = (size.cells, done.version, done.last);
            let _ = println!(rt; "cells {cells}\nversion {version}\nlast {last}");
            ExitCode::SUCCESS
        }
        Err(_) => ExitCode::FAILURE,
    }
}
