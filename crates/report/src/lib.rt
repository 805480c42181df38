//! The texts that the program writes: the report of a capture's inspection, the summary of a trial, and
//! the line of a fault.
#![tactic(auto)]

mod audit_line;
mod fault;
mod fault_line;
mod finding;
mod report_lines;
mod summary;

pub use audit_line::audit_text;
pub use capture_terms::CaptureFault;
pub use fault::Fault;
pub use fault_line::write_fault;
pub use finding::Finding;
pub use report_lines::report_text;
pub use summary::summary_text;

#[cfg(test)]
mod tests;
