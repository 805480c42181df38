//! Runs transactions over a store whose purpose is anything, so that the instructions and the time of a transaction can be
//! measured, and how many attempts are in vain where several threads work.
//!
//! The words are the number of a workload (all of them where it is 0), the threads, the transactions of each, and
//! the seed of what is drawn at random.
#![tactic(auto)]

mod by_hand;
mod calls;
mod keys;
mod load;
mod measure;
mod open;
mod pipeline;
mod touch;
mod transact;
mod words;
mod work;
mod workload;

use measure::Report;
use std::process::ExitCode;
use workload::Workload;

fn main(rt: HostRuntime) -> ExitCode {
    let extent = words::extent_asked_for(&rt);
    let number = words::workload_asked_for(&rt);
    let mut code = ExitCode::SUCCESS;
    for workload in Workload::ALL {
        if number != 0 && number != workload.number() {
            continue;
        }
        let name = workload.name();
        match workload::run(&rt, rt.alloc(), workload, extent) {
            Ok(
                Report {
                    committed,
                    vain,
                    end: None,
                },
            ) => {
                let _ = println!(rt; "{name}: {committed} committed, {vain} attempts in vain");
            }
            _ => {
                let _ = println!(rt; "{name}: not all were committed");
                code = ExitCode::FAILURE;
            }
        }
    }
    code
}
