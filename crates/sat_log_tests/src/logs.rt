//! What the check says of a log.

use mf_list::Memory;
use sat_log::{Clauses, Log, are_below, refutes};
use std::alloc::Global;

/// Whether the log refutes the clauses, or None where they have a variable that isn't below `vars`.
pub fn is_refuted_by(alloc: Global, clauses: &Clauses, log: &Log) -> Result<Option<bool>, Memory> {
    if !are_below(clauses.vars, clauses.list.as_slice()) {
        return Ok(None);
    }
    let refutes = refutes(alloc, clauses, log)?;
    Ok(Some(refutes))
}

/// Whether the log refutes the clauses, and no longer does without its last clause.
pub fn is_needed_whole(alloc: Global, clauses: &Clauses, log: Log) -> Result<bool, Memory> {
    let mut log = log;
    let whole = is_refuted_by(alloc, clauses, &log)?;
    log.list.pop();
    let cut = is_refuted_by(alloc, clauses, &log)?;
    Ok(whole == Some(true) && cut == Some(false))
}
