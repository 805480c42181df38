//! The guided example of a store: two threads carry out orders that move amounts between accounts, whole or not at all.
//!
//! What is always true of the accounts and the receipts is said once, of serial structures (`store_bodies`). So it is true at the
//! end, whatever the threads did in between.
#![tactic(auto)]

mod run;
mod sums;
mod work;

use std::process::ExitCode;

fn main(rt: HostRuntime) -> ExitCode {
    match run::run(&rt, rt.alloc()) {
        Ok(end) => {
            let _ = println!(rt;
                "senders and receivers {}\nreceipts and 400 beside receivers {}",
                end.senders + end.receivers,
                end.received + 400 == end.receivers
            );
            ExitCode::SUCCESS
        }
        Err(_) => ExitCode::FAILURE,
    }
}
