//! A value with several owners, and a label that shows it.

ghost use Rattle.std.specs.Prelude.{◌≡◌, IfOk, IfSome};
ghost use Rattle.std.specs.Arc.{arc_value};
ghost use Rattle.std.specs.Option.{ForSome};

use boxcar::slot::{OnceSlot, SlotRule, Written};
use boxcar::tag::Tag;
use std::alloc::{AllocError, Global};
use std::snapshot::Snapshot;
use std::sync::Arc;

/// What is asked of the value that a label shows: nothing.
struct AnyValue;

impl<T> SlotRule<Snapshot<T>> for AnyValue {
    ghost use Rattle.std.specs.Prelude.{◌≡◌};

    ghost holds = { λ _ shown. shown ≡ shown };
}

/// A value with several owners, and a label that shows it.
#[derive(Drop)]
pub(crate) struct Shared<T: Drop> {
    /// The value, unless one more owner was refused: then the label alone tells which it is.
    value: Option<Arc<T, Global>>,
    pub(crate) shown: Written<Snapshot<T>>,
    ghost same: { ForSome value (λ v. arc_value v ≡ shown.value.value) },
}

impl<T: Drop> Shared<T> {
    /// This value. `AllocError` if memory was refused.
    pub(crate) fn new(alloc: Global, value: T) -> Result<Shared<T>, AllocError>
        ensures { IfOk result (λ s. s.shown.value.value ≡ value) }
    {
        let slot: OnceSlot<Snapshot<T>, AnyValue> = OnceSlot::new(&Tag::empty());
        // No clause says that a fresh slot takes what it is given.
        let Ok(shown) = slot.set_written(Snapshot::of(&value)) else {
            return Err(AllocError);
        };
        Ok(Shared {
            value: Some(Arc::new(alloc, value)?),
            shown,
        })
    }

    /// The same value.
    pub(crate) fn again(&self) -> Shared<T>
        ensures { result.shown.value.value ≡ self.now.shown.value.value }
    {
        let value = match &self.value {
            Some(value) => Arc::try_clone(value).ok(),
            None => None,
        };
        Shared {
            value,
            shown: self.shown.again(),
        }
    }

    /// The value, unless an owner was refused.
    pub(crate) fn value(&self) -> Option<&T>
        ensures { IfSome result (λ v. v.now ≡ self.now.shown.value.value) }
    {
        match &self.value {
            Some(value) => Some(value),
            None => None,
        }
    }
}
