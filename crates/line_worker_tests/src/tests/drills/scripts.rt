//! Scripts of the tests.
ghost use Rattle.std.specs.Prelude.{◌<◌, ◌≤◌};

use line_names::{Body, ProcId};
use line_posts::MOST_WORKERS;
use line_tape::State;
use line_workers::Order;
use std::alloc::{AllocError, Global};

/// A message of one byte.
pub fn send(to: u32, byte: u8) -> Order
    requires { to < 64 }
{
    let to = ProcId::try_new(to, 64).unwrap();
    let body = Body::try_new(&[byte]).unwrap();
    Order::Send { to, body }
}

/// What that process sent.
pub fn receive(from: u32) -> Order
    requires { from < 64 }
{
    let from = ProcId::try_new(from, 64).unwrap();
    Order::Receive { from }
}

/// A check with these bytes.
pub fn check(alloc: Global, bytes: &[u8]) -> Result<Order, AllocError> {
    let state = State::of(Vec::from_slice(alloc, bytes)?);
    Ok(Order::Check { state })
}

/// A script of one order.
fn one(alloc: Global, order: Order) -> Result<Vec<Order>, AllocError> {
    let mut script = Vec::with_capacity(alloc, 1)?;
    script.push_reserved(order);
    Ok(script)
}

/// A script of two orders.
fn two(alloc: Global, first: Order, second: Order) -> Result<Vec<Order>, AllocError> {
    let mut script = Vec::with_capacity(alloc, 2)?;
    script.push_reserved(first);
    script.push_reserved(second);
    Ok(script)
}

/// A script that sends a message of one byte, receives one, and takes a check.
fn exchange(alloc: Global, to: u32, from: u32, byte: u8) -> Result<Vec<Order>, AllocError>
    requires to { to < 64 }
    requires from { from < 64 }
{
    let last = check(alloc, &[0])?;
    let mut script = Vec::with_capacity(alloc, 3)?;
    script.push_reserved(send(to, byte));
    script.push_reserved(receive(from));
    script.push_reserved(last);
    Ok(script)
}

/// The scripts of two workers.
fn pair(
    alloc: Global,
    first: Vec<Order>,
    second: Vec<Order>,
) -> Result<Vec<Vec<Order>>, AllocError> {
    let mut scripts = Vec::with_capacity(alloc, 2)?;
    scripts.push_reserved(first);
    scripts.push_reserved(second);
    Ok(scripts)
}

/// Two workers, of which the first waits for a message in vain.
pub fn waiting(alloc: Global) -> Result<Vec<Vec<Order>>, AllocError> {
    let script = one(alloc, receive(1))?;
    pair(alloc, script, Vec::new(alloc))
}

/// Two workers that both wait in vain.
pub fn both_waiting(alloc: Global) -> Result<Vec<Vec<Order>>, AllocError> {
    let first = one(alloc, receive(1))?;
    let second = one(alloc, receive(1))?;
    pair(alloc, first, second)
}

/// Two workers, of which the first sends twice and the second receives nothing.
pub fn crowded(alloc: Global) -> Result<Vec<Vec<Order>>, AllocError> {
    let script = two(alloc, send(1, 7), send(1, 8))?;
    pair(alloc, script, Vec::new(alloc))
}

/// So many workers that each send to the next, receive from the one before, and take a check,
/// round in a circle.
pub fn ring(alloc: Global, n: u32) -> Result<Vec<Vec<Order>>, AllocError>
    requires { n ≤ MOST_WORKERS }
{
    let mut scripts = Vec::new(alloc);
    for p in 0..n {
        let script = exchange(alloc, (p + 1) % n, (p + n - 1) % n, b'a' + p as u8)?;
        scripts.push(script)?;
    }
    Ok(scripts)
}

/// So many workers without orders.
pub fn idle(alloc: Global, n: u32) -> Result<Vec<Vec<Order>>, AllocError> {
    let mut scripts = Vec::new(alloc);
    for _p in 0..n {
        scripts.push(Vec::new(alloc))?;
    }
    Ok(scripts)
}

/// Two workers, where the second has one order, after a check.
pub fn second(alloc: Global, order: Order) -> Result<Vec<Vec<Order>>, AllocError> {
    let first = Order::Check {
        state: State::of(Vec::new(alloc)),
    };
    let script = two(alloc, first, order)?;
    pair(alloc, Vec::new(alloc), script)
}
