ghost use Rattle.std.specs.Prelude.{◌≡◌, ◌<◌, ◌≤◌, [], ◌∷◌, ◌++◌, length, Some, None, Ok, Err, slice_index_or, slice_set};
ghost use Rattle.lent.specs.Held.{held, loan, memory};

use super::{Full, LentList};

impl<'a, T: Copy> LentList<'a, T> {
    // An empty list over the lent memory, which it leaves as it is.
    pub fn new(items: &'a mut [T]) -> LentList<'a, T>
        ensures held { held result ≡ [] }
        ensures memory { memory result ≡ items.old }
        ensures loan { loan result ≡ items.entry.ghost_name }
    {
        LentList { items, len: 0 }
    }

    // How many items are held.
    pub fn len(&self) -> usize
        ensures { result ≡ length (held self.now) }
    {
        self.len
    }

    // How many items the lent memory has room for.
    pub fn capacity(&self) -> usize
        ensures { result ≡ length (memory self.now) }
    {
        self.items.len()
    }

    // The held items, oldest first.
    pub fn as_slice(&self) -> &[T]
        ensures { result.now ≡ held self.now }
    {
        &self.items[..self.len]
    }

    // The i-th item, counted from 0 and the oldest.
    pub fn get(&self, i: usize) -> Option<T>
        ensures { elim result [ Some x ↦ (i < length (held self.now)) × (x ≡ slice_index_or (held self.now) i x) | None ↦ length (held self.now) ≤ i ] }
    {
        self.as_slice().get(i).copied()
    }

    // Holds nothing any more; the memory is not wiped.
    pub fn clear(&mut self)
        ensures held { held self.new ≡ [] }
        ensures memory { memory self.new ≡ memory self.old }
        ensures loan { loan self.new ≡ loan self.old }
    {
        self.len = 0;
    }

    // Adds an item after the newest; a full list refuses it and stays as it is.
    pub fn push(&mut self, x: T) -> Result<(), Full>
        ensures cases { elim result [ Ok _ ↦ (held self.new ≡ held self.old ++ x ∷ []) × (memory self.new ≡ slice_set (memory self.old) (length (held self.old)) x) | Err _ ↦ (self.new ≡ self.old) × (length (memory self.old) ≡ length (held self.old)) ] }
        ensures loan { loan self.new ≡ loan self.old }
    {
        if self.len < self.capacity() {
            self.items[self.len] = x;
            self.len += 1;
            Ok(())
        } else {
            Err(Full)
        }
    }

    // Takes the newest item off; its memory keeps it.
    pub fn pop(&mut self) -> Option<T>
        ensures cases { elim result [ Some x ↦ (held self.old ≡ held self.new ++ x ∷ []) × (memory self.new ≡ memory self.old) | None ↦ (self.new ≡ self.old) × (held self.old ≡ []) ] }
        ensures loan { loan self.new ≡ loan self.old }
    {
        if self.len == 0 {
            return None;
        }
        self.len -= 1;
        Some(self.items[self.len])
    }
}
