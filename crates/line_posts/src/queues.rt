//! Queues by process: the first item of a queue.
ghost use Rattle.std.specs.Prelude.{◌≡◌, ◌<◌, ◌∷◌, [], IsTrue, List, false, length, map};
ghost use Rattle.std.specs.VecDeque.{deque_items};
ghost use Rattle.line_posts.specs.Ends.{row_at};
ghost use Rattle.line_posts.specs.Receipts.{without_first};

use std::collections::VecDeque;

/// Whether the queue of a process has an item.
pub(crate) fn keeps<T>(queues: &Vec<VecDeque<T>>, p: usize) -> bool
    requires { p < length queues.now.items }
    ensures yes_is { IsTrue result → 0 < length (row_at (map deque_items queues.now.items) p) }
    ensures no_is { result ≡ false → row_at (map deque_items queues.now.items) p ≡ [] }
{
    let queue = &queues[p];
    !queue.is_empty()
}

/// The first item of the queue of a process.
pub(crate) fn first_kept<T>(queues: &Vec<VecDeque<T>>, p: usize) -> &T
    requires within { p < length queues.now.items }
    requires some { 0 < length (row_at (map deque_items queues.now.items) p) }
    ensures { (rest : List T)
        × (row_at (map deque_items queues.now.items) p ≡ result.now ∷ rest) }
{
    let queue = &queues[p];
    queue.front().unwrap()
}

/// Takes the first item of the queue of a process.
pub(crate) fn take_kept<T>(queues: &mut Vec<VecDeque<T>>, p: usize) -> T
    requires within { p < length queues.old.items }
    requires some { 0 < length (row_at (map deque_items queues.old.items) p) }
    ensures first { row_at (map deque_items queues.old.items) p
        ≡ result ∷ row_at (map deque_items queues.new.items) p }
    ensures rows { map deque_items queues.new.items
        ≡ without_first (map deque_items queues.old.items) p }
{
    let queue = &mut queues[p];
    queue.pop_front().unwrap()
}
