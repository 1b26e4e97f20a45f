//! One pass over the parts of a line.
ghost use Rattle.std.specs.Prelude.{◌≡◌, ℕ, ◌+◌, ◌-◌, ◌<◌, ◌≤◌, length, IfOk, MatchOption};
ghost use Rattle.dj_calculus.specs.Parts.{chain};
ghost use Rattle.dj_calculus.specs.Tables.{empty_table};
ghost use Rattle.dj_line.specs.Lines.{plain_line};
ghost use Rattle.dj_product_laws.specs.OnePass.{Passed, StopsAt};
ghost use Rattle.ifj_table.specs.Tables.{plain_table};

use crate::attempts::attempt_each;
use crate::growing::GrowingTable;
use crate::parts::operations_of_part;
use dj_line::{Config, Line};
use dj_tree::Instance;
use std::alloc::{AllocError as NoMemory, Global};

// Attempts the operations of the active deltas part by part along the chain, on a table without classes. It ends with the
// first part in which a rule is met, and gives the least one that is met there. Without memory the table is of no use.
pub fn pass(
    alloc: Global,
    table: &mut GrowingTable,
    line: &Line,
    config: &Config,
) -> Result<Option<Instance>, NoMemory>
    requires features { length config.now.chosen.items ≡ length (plain_line line.now).features }
    requires empty { plain_table table.old.table ≡ empty_table }
    ensures { IfOk result (λ stopped. MatchOption stopped
        (Passed (plain_line line.now) config.now.chosen.items (length (chain (plain_line line.now))) (plain_table table.new.table))
        (λ i. (k : ℕ) × StopsAt (plain_line line.now) config.now.chosen.items k i.rule i.at × (i.second ≡ i.at))) }
{
    let count = chain_length(line);
    for number in 0..count {
        let part = part_number(number)?;
        if let Some(broken) = pass_part(alloc, table, line, config, part)? {
            return Ok(Some(broken));
        }
    }
    Ok(None)
}

// How many parts the chain of a line has, which are all.
pub fn chain_length(line: &Line) -> usize
    ensures chain { result ≡ length (chain (plain_line line.now)) }
    ensures parts { result ≡ length (plain_line line.now).parts }
{
    let source = line.source();
    source.parts.as_slice().len()
}

// The number of a part from 1, where it is given from 0.
pub fn part_number(number: usize) -> Result<u32, NoMemory>
    ensures { IfOk result (λ part. part ≡ number + 1) }
{
    if number >= 4_294_967_295 {
        return Err(NoMemory);
    }
    Ok(number as u32 + 1)
}

// Attempts the operations of a part, on what the parts before leave, and gives the least rule that is met.
fn pass_part(
    alloc: Global,
    table: &mut GrowingTable,
    line: &Line,
    config: &Config,
    part: u32,
) -> Result<Option<Instance>, NoMemory>
    requires features { length config.now.chosen.items ≡ length (plain_line line.now).features }
    requires from_one { 1 ≤ part }
    requires within { part ≤ length (plain_line line.now).parts }
    requires passed { Passed (plain_line line.now) config.now.chosen.items (part - 1) (plain_table table.old.table) }
    ensures { IfOk result (λ stopped. MatchOption stopped
        (Passed (plain_line line.now) config.now.chosen.items part (plain_table table.new.table))
        (λ i. StopsAt (plain_line line.now) config.now.chosen.items (part - 1) i.rule i.at × (i.second ≡ i.at))) }
{
    let source = line.source();
    let operations = operations_of_part(alloc, line, source, config, part)?;
    attempt_each(alloc, table, source, &operations)
}
