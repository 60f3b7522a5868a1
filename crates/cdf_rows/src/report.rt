//! Which rows are right.

use crate::table::Table;
use crate::trial::Trial;
use anyhow::Result;

/// Tries all rows of a table, says of each whether it is right, and answers how many are not.
pub fn report_rows(rt: &(impl Print + AllocGlobal), table: &Table) -> Result<u64> {
    let mut wrong = 0u64;
    for row in &table.rows {
        let title = row.title.as_str();
        match Trial::new(rt.alloc(), table, row)?.fault()? {
            None => println!(rt; "  right: {title}")?,
            Some(fault) => {
                wrong = wrong.saturating_add(1);
                println!(rt; "  wrong: {title}: {fault}")?;
            }
        }
    }
    Ok(wrong)
}
