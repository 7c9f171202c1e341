//! The list, which takes no memory and whose calls do nothing when they run.
ghost use Rattle.std.specs.Prelude.{◌≡◌, List, [], ◌∷◌, ◌++◌};
ghost use Rattle.std.specs.Borrow.{ftrue};

use std::marker::{Model, PhantomData};

/// A list of what contracts see of values. They read it as `items`.
#[derive(Drop)]
pub struct GhostList<T> {
    of: PhantomData<T>,
    pub ghost items: { List T },
}

impl<T> Model for GhostList<T> {
    ghost also_owns = { λ _. ftrue };
}

// It owns nothing.
unsafe impl<T: Send> Send for GhostList<T> {}

impl<T> GhostList<T> {
    /// The empty list.
    pub fn new() -> GhostList<T>
        ensures { result.items ≡ [] }
    {
        GhostList { of: PhantomData }
    }

    /// This list with one item more at its end.
    pub fn and(&self, item: &T) -> GhostList<T>
        ensures { result.items ≡ self.now.items ++ item.now ∷ [] }
    {
        GhostList { of: PhantomData }
    }

    /// This list with further items at its end.
    pub fn and_all(&self, more: &[T]) -> GhostList<T>
        ensures { result.items ≡ self.now.items ++ more.now }
    {
        GhostList { of: PhantomData }
    }
}
