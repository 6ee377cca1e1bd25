// A stack over a slice that the caller lends: it holds as many items as the slice has places.
use std::marker::Model;

// What can be done with a stack.
mod ops;

// The first `count` items are on the stack, the newest last; the places after them are free.
// A lent slice and a count, and no `Vec`: a stack serves code that may not allocate.
#[derive(Drop)]
pub struct Stack<'a, T> {
    items: &'a mut [T],
    count: usize,
}

impl<'a, T> Model for Stack<'a, T> {
    ghost use Rattle.std.specs.Prelude.{◌≤◌, length, reverse, take};
    ghost use Rattle.stack.specs.Stack.{Contents};

    ghost Value = { Contents T };

    ghost view = { λ s. record { items = reverse (take s.count s.items.now); room = length s.items.now } };

    ghost invariant = { λ s. s.count ≤ length s.items.now };
}
