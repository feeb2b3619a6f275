//! One value on the heap, whose contracts speak of the value alone, and so can stand in a recursive type.

ghost use Rattle.std.specs.Prelude.{◌≡◌, IfOk};

use std::alloc::{AllocError, Global};
use std::marker::Model;
use std::ops::Deref;

/// One value on the heap. To a contract it is that value: the place of its block is no part of it, so two boxes
/// with one value are equal.
#[derive(Debug, Drop)]
pub struct Box<T> {
    inner: std::boxed::Box<T>,
}

impl<T> Model for Box<T> {
    ghost Value = { T };

    ghost coded = { T.code };

    ghost view = { λ b. b.inner.value };
}

impl<T> Box<T> {
    /// The value.
    pub fn get(&self) -> &T
        ensures { result.now ≡ self.now }
    {
        &self.inner
    }

    /// Takes the value out.
    pub fn into_inner(self) -> T
        ensures { result ≡ self }
    {
        let Box { inner } = self;
        std::boxed::Box::into_inner(inner)
    }
}

impl<T: Drop> Box<T> {
    /// Puts the value on the heap. Where there is no memory it is dropped.
    pub fn new(alloc: Global, value: T) -> Result<Box<T>, AllocError>
        ensures { IfOk result (λ b. b ≡ value) }
    {
        Ok(Box {
            inner: std::boxed::Box::new(alloc, value)?,
        })
    }
}

/// A clone has a clone of the value.
impl<T: Clone> Clone for Box<T> {
    ghost is_clone = { T.is_clone };

    /// Clones the value, into a block of its own.
    fn clone(&self) -> Result<Box<T>, AllocError> {
        let inner = self.inner.clone()?;
        Ok(Box { inner })
    }
}

/// Equal where the values are.
impl<T: PartialEq> PartialEq for Box<T> {
    ghost eq = { T.eq };

    ghost laws = { T.laws };

    /// Whether the two values are equal.
    fn eq(&self, other: &Box<T>) -> bool {
        *self.inner == *other.inner
    }
}

impl<T: Eq> Eq for Box<T> {
    ghost laws = { T.Eq.laws };
}

impl<T> Deref for Box<T> {
    type Target = T;

    ghost deref_gives = { λ b value. value ≡ b };

    /// The value.
    fn deref(&self) -> &T {
        &self.inner
    }
}
