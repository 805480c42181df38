//! Threads may share a table and hand passes on.
use crate::meaning::Meaning;
use crate::pass::Pass;
use crate::table::CellTable;

fn may_be_shared<T: Send + Sync>(value: &T) {
    let _ = value;
}

fn may_be_sent<T: Send>(value: &T) {
    let _ = value;
}

/// A table may be shared by threads and a pass moved to another one, where the meaning and its calls may.
pub fn crosses_threads<M: Meaning + Send + Sync>(table: &CellTable<M>, pass: &Pass<M>)
where
    M::Done: Send,
{
    may_be_shared(table);
    may_be_sent(pass);
}
