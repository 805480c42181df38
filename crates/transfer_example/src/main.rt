//! Two threads move amounts from the accounts of one map to those of another, and log a receipt for each.
//!
//! The smallest whole program over the structures: what an attempt calls, in which order, and what a table's meaning says so
//! that the accounts keep their sum whatever the threads do.
#![tactic(auto)]

mod bank;
mod run;
mod transfer;

use std::process::ExitCode;

fn main(rt: HostRuntime) -> ExitCode {
    match run::run(&rt, rt.alloc()) {
        Ok(at_end) => {
            let (senders, receivers, received) = (
                at_end.senders,
                at_end.receivers,
                at_end.received,
            );
            let _ = println!(rt;
                "senders and receivers {}\nreceipts and 400 beside receivers {}",
                senders + receivers,
                received + 400 == receivers
            );
            ExitCode::SUCCESS
        }
        Err(_) => ExitCode::FAILURE,
    }
}
