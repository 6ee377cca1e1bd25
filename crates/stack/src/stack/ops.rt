// What can be done with a stack.
ghost use Rattle.std.specs.Prelude.{◌≡◌, ◌≤◌, [], length};
ghost use Rattle.stack.specs.Stack.{Popped, Pushed, newest};

use super::Stack;

// `within` stands on each question and change: it is the model's invariant, which a caller does not see.
impl<'a, T: Copy> Stack<'a, T> {
    // An empty stack with a place for each element of the slice.
    pub fn new(items: &'a mut [T]) -> Stack<'a, T>
        ensures items { result.items ≡ [] }
        ensures room { result.room ≡ length items.old }
    {
        Stack { items, count: 0 }
    }

    // How many items are on the stack.
    pub fn len(&self) -> usize
        ensures answer { result ≡ length self.now.items }
        ensures within { result ≤ self.now.room }
    {
        self.count
    }

    // Puts an item on top, or gives it back where the stack is full.
    pub fn push(&mut self, item: T) -> Result<(), T>
        ensures items { Pushed item self.old.room self.old.items result self.new.items }
        ensures within { length self.old.items ≤ self.old.room }
        ensures room { self.new.room ≡ self.old.room }
    {
        if self.count == self.items.len() {
            return Err(item);
        }
        self.items[self.count] = item;
        self.count += 1;
        Ok(())
    }

    // Takes the newest item off, if there is one.
    pub fn pop(&mut self) -> Option<T>
        ensures items { Popped self.old.items result self.new.items }
        ensures within { length self.old.items ≤ self.old.room }
        ensures room { self.new.room ≡ self.old.room }
    {
        let newest = self.count.checked_sub(1)?;
        self.count = newest;
        Some(self.items[newest])
    }

    // The newest item, which stays.
    pub fn top(&self) -> Option<T>
        ensures answer { result ≡ newest self.now.items }
        ensures within { length self.now.items ≤ self.now.room }
    {
        let items: &[T] = self.items;
        items[..self.count].last().copied()
    }
}
