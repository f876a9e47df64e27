//! Gates of the tests.
use line_posts::Post;
use line_tape::{EventRef, Tape};
use line_workers::Gate;
use std::sync::atomic::{AtomicBool, Ordering};
use std::thread::yield_now;

/// A gate that lets all go on, or nobody.
#[derive(Drop)]
pub struct Fixed {
    pub is_open: bool,
}

impl Gate for Fixed {
    fn pass(&self, _p: u32, _k: u32, _post: &Post) -> bool {
        self.is_open
    }
}

/// A gate that lets workers 0 and 1 go on to their order 1 where both ask at once, and to their
/// order 2 where they have received by then. A worker that one thread drills after another never
/// goes on, nor does one whose events are not those of its orders.
#[derive(Drop)]
pub struct Meeting {
    first: AtomicBool,
    second: AtomicBool,
}

/// Whether the last event is a Recv.
fn has_received(tape: &Tape) -> bool {
    if tape.len() == 0 {
        return false;
    }
    match tape.event(tape.len() - 1) {
        EventRef::Recv { .. } => true,
        EventRef::Send { .. } | EventRef::Check { .. } | EventRef::Mark { .. } => false,
    }
}

/// Raises a flag, and lowers it again where the other is not seen raised.
fn meets(mine: &AtomicBool, other: &AtomicBool) -> bool {
    mine.store(true, Ordering::SeqCst);
    for _look in 0..10_000 {
        if other.load(Ordering::SeqCst) {
            return true;
        }
        yield_now();
    }
    mine.store(false, Ordering::SeqCst);
    false
}

impl Meeting {
    /// Nobody has come yet.
    pub fn new() -> Meeting {
        Meeting {
            first: AtomicBool::new(false),
            second: AtomicBool::new(false),
        }
    }

    /// Whether both have met.
    pub fn have_met(&self) -> bool {
        self.first.load(Ordering::SeqCst) && self.second.load(Ordering::SeqCst)
    }
}

impl Gate for Meeting {
    fn pass(&self, p: u32, k: u32, post: &Post) -> bool {
        let tape = post.tape();
        if tape.len() != k || (k == 2 && !has_received(tape)) {
            return false;
        }
        match (p, k) {
            (0, 1) => meets(&self.first, &self.second),
            (1, 1) => meets(&self.second, &self.first),
            _ => true,
        }
    }
}
