//! A ring from each sender to each receiver.
ghost use Rattle.std.specs.Prelude.{◌≡◌, [], All, IfOk, length, replicate};
ghost use Rattle.line_posts.specs.Ends.{out_ends, out_rows, in_rows, rows_with_items, AreFresh};
ghost use Rattle.line_posts.specs.Ends.{AreLinked};
ghost use Rattle.line_posts.specs.Ends.{HasAllFree, HaveAllFree, HaveSlots};

use rtrb::{Consumer, Producer, RingBuffer};
use std::alloc::{AllocError, Global};

/// The ends of all rings: those that push by sender and then receiver, those that pop by receiver
/// and then sender.
#[derive(Drop)]
pub(crate) struct Rings<T: Drop> {
    pub(crate) outs: Vec<Vec<Producer<T>>>,
    pub(crate) ins: Vec<Vec<Consumer<T>>>,
}

/// The rings of one more sender: the ends that push, while each end that pops goes to its
/// receiver's.
fn row<T: Drop>(
    alloc: Global,
    capacity: usize,
    ins: &mut Vec<Vec<Consumer<T>>>,
) -> Result<Vec<Producer<T>>, AllocError>
    ensures dealt { IfOk result (λ outs.
        in_rows ins.new.items ≡ rows_with_items (in_rows ins.old.items) (out_ends outs.items)) }
    ensures count { IfOk result (λ outs. length outs.items ≡ length ins.old.items) }
    ensures fresh { IfOk result (λ outs. AreFresh (out_ends outs.items)) }
    ensures free { IfOk result (λ outs. All (HasAllFree capacity) outs.items) }
{
    let n = ins.len();
    let mut outs = Vec::with_capacity(alloc, n)?;
    for q in 0..n {
        let (producer, consumer) = RingBuffer::new(alloc, capacity)?;
        outs.push(producer)?;
        let column = &mut ins[q];
        column.push(consumer)?;
    }
    Ok(outs)
}

/// No ends yet, for each of `n` receivers, with room for those of so many senders.
fn columns<T: Drop>(
    alloc: Global,
    n: usize,
    room: usize,
) -> Result<Vec<Vec<Consumer<T>>>, AllocError>
    ensures { IfOk result (λ ins. in_rows ins.items ≡ replicate n []) }
{
    let mut ins = Vec::with_capacity(alloc, n)?;
    for _q in 0..n {
        let column = Vec::with_capacity(alloc, room)?;
        ins.push(column)?;
    }
    Ok(ins)
}

/// A ring of that capacity from each of `senders` workers to each of `receivers`, nothing in any of
/// them.
///
/// Where senders and receivers are the same workers, each has a ring to itself too, so that ends
/// are found by the number of a process.
pub(crate) fn make_rings<T: Drop>(
    alloc: Global,
    senders: usize,
    receivers: usize,
    capacity: usize,
) -> Result<Rings<T>, AllocError>
    ensures linked { IfOk result (λ l.
        AreLinked senders receivers (out_rows l.outs.items) (in_rows l.ins.items)) }
    ensures capacity { IfOk result (λ l. HaveAllFree capacity l.outs.items) }
    ensures slots { IfOk result (λ l.
        HaveSlots senders receivers capacity (out_rows l.outs.items)) }
{
    let mut ins = columns(alloc, receivers, senders)?;
    let mut outs = Vec::with_capacity(alloc, senders)?;
    for _p in 0..senders {
        let row = row(alloc, capacity, &mut ins)?;
        outs.push(row)?;
    }
    Ok(Rings { outs, ins })
}
