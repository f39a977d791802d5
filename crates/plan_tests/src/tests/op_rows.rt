//! Operations as rows of plain numbers.

use listed::Listed;
use schedule_model::Op;
use std::alloc::Global;
use std::test::Fail;

/// An operation as a row writes it.
#[derive(Clone, Copy)]
pub(crate) enum OpRow {
    /// A send: its link, its kind and its start.
    Sent(u32, u32, u128),
    /// A computation: its node and its start.
    Computed(u32, u128),
}

fn op_of(row: OpRow) -> Op {
    match row {
        OpRow::Sent(link, kind, start) => Op::Send { link, kind, start },
        OpRow::Computed(node, start) => Op::Compute { node, start },
    }
}

/// The operations of some rows.
pub(crate) fn ops_of(alloc: Global, rows: &[OpRow]) -> Result<Listed<Op>, Fail> {
    let mut ops = Listed::new(alloc);
    for row in rows {
        ops.push(op_of(*row))?;
    }
    Ok(ops)
}

/// Whether some operations are those of rows.
pub(crate) fn are_of_op_rows(ops: &[Op], rows: &[OpRow]) -> bool {
    for (op, row) in ops.iter().zip(rows) {
        if *op != op_of(*row) {
            return false;
        }
    }
    ops.len() == rows.len()
}
