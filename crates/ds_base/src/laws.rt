//! Laws about lists that layers above build on. Each is a call that does nothing.

ghost use Rattle.std.specs.Prelude.{Bool, List};
ghost use Rattle.ds_base.specs.Fronts.{AreParted, SameFront};
ghost use Rattle.ds_base.specs.declared.stamp.Stamp.{Stamp};

/// A law: by any test, a list is its front and what comes onward; all of the front pass the test, and
/// what comes onward begins with an item that fails it.
pub fn parted<T>()
    ensures { (p : T → Bool) (xs : List T) → AreParted p xs }
{}

/// A law: two lists in the order of their stamps, which have the same items of those that pass a test,
/// have the same front by it, where an item passes that is before one that passes.
pub fn same_front<T>()
    ensures { (at : T → Stamp) (p : T → Bool) (xs ys : List T) → SameFront at p xs ys }
{}
