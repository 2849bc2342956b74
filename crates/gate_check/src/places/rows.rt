//! The servers from which reads take at a residue, as a row.

ghost use Rattle.std.specs.Prelude.{◌≡◌, [], ◌∷◌, ◌++◌, true, IfOk};
ghost use Rattle.gate_coverage.specs.Pools.{servers_at};
ghost use Rattle.gate_check.specs.Valid.{IsRising};
ghost use Rattle.gate_check.specs.TableRows.{IsRowOf};

use gate_coverage::pools::Pool;
use mc_types::ServerId;
use std::alloc::AllocError;

// Whether a row that rises still does with this server after it.
fn goes_last(row: &[ServerId], server: ServerId) -> bool
    ensures { result ≡ true → IsRising row.now → IsRising (row.now ++ server ∷ []) }
{
    if row.is_empty() {
        return true;
    }
    let last = row[row.len() - 1];
    last.number() < server.number()
}

// Whether a row that is thought to rise still does with this server after it.
fn still_rises(rises: bool, row: &[ServerId], server: ServerId) -> bool
    ensures { (rises ≡ true → IsRising row.now) → result ≡ true → IsRising (row.now ++ server ∷ []) }
{
    rises && goes_last(row, server)
}

// Puts in the pools' servers at the residue, one after another, and answers whether they rise, as they mostly do.
fn put_servers(pools: &[Pool], residue: u32, row: &mut Vec<ServerId>) -> Result<bool, AllocError>
    ensures servers { IfOk result (λ _. row.new.items ≡ servers_at residue pools.now) }
    ensures rising { IfOk result (λ rises. rises ≡ true → IsRising row.new.items) }
{
    row.clear();
    let mut rises = true;
    for pool in pools {
        let server = pool.at(residue);
        rises = still_rises(rises, row, server);
        row.push(server)?;
    }
    Ok(rises)
}

/// Puts into the row, for what it held, the servers of the pools at the residue, each once and rising. The only error is
/// that memory was refused.
pub fn put_row(pools: &[Pool], residue: u32, row: &mut Vec<ServerId>) -> Result<(), AllocError>
    ensures { IfOk result (λ _. IsRowOf residue pools.now row.new.items) }
{
    if put_servers(pools, residue, row)? {
        return Ok(());
    }
    row.sort_unstable_by_key(|server| server.number());
    row.dedup();
    Ok(())
}
