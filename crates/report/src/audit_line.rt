// What is told of a legal journal.
ghost use Rattle.std.specs.Prelude.{◌≡◌, IfOk};
ghost use Rattle.report.specs.Audit.{audit_text};

use crate::report_lines::push_number;
use std::alloc::{AllocError, Global};

/// The line that a journal is legal, with the numbers of its records and sights.
pub fn audit_text(alloc: Global, records: u64, sights: u64) -> Result<Vec<u8>, AllocError>
    ensures { IfOk result (λ text. text.items ≡ audit_text records sights) }
{
    let mut text = Vec::new(alloc);
    text.extend_from_slice(b"yes ")?;
    push_number(&mut text, records)?;
    text.push(b' ')?;
    push_number(&mut text, sights)?;
    text.push(b'\n')?;
    Ok(text)
}
