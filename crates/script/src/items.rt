//! A list in memory, which contracts see as the list.
ghost use Rattle.std.specs.Prelude.{◌≡◌};

use std::marker::Model;

/// A list in memory.
pub struct Items<T: Drop> {
    list: Vec<T>,
}

impl<T: Drop> Model for Items<T> {
    ghost use Rattle.std.specs.Prelude.{List};

    ghost Value = { List T };

    ghost view = { λ i. i.list.items };
}

impl<T: Drop> Drop for Items<T> {
    fn drop(self) {
        let Items { list } = self;
        drop(list);
    }
}

impl<T: Drop> Items<T> {
    /// Keeps a list.
    pub fn new(list: Vec<T>) -> Items<T>
        ensures { result ≡ list.items }
    {
        Items { list }
    }

    /// Lends the list.
    pub fn items(&self) -> &[T]
        ensures { result.now ≡ self.now }
    {
        self.list.as_slice()
    }
}
