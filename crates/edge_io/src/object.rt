//! What stays the same object, whatever is called on it.

/// An object of the outside world, which calls change and never replace.
///
/// The trait is there for objects that are lent. Generic code that is handed a `&mut S` as its source
/// might, as far as its bounds say, put another `&mut S` in its place; the lender would then know
/// nothing of its own `S` afterwards. So each call ensures that the object is the same as before: for a
/// reference, that it is still that reference, and for an owned value nothing.
pub trait Object {
    /// The second is the first, after any calls.
    ghost same: { Self → Self → Type 0 };

    ghost same_refl: { (x : Self) → same x x };

    ghost same_trans: { (x y z : Self) → same x y → same y z → same x z };
}
