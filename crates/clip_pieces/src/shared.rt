//! A value that several lists share.
ghost use Rattle.std.specs.Prelude.{◌≡◌, IfOk};
ghost use Rattle.std.specs.Arc.{arc_value};

use crate::exact::Exact;
use clip_words::NoMemory;
use std::alloc::{AllocError, Global};
use std::marker::Model;
use std::sync::Arc;

/// A value behind an `Arc`, which contracts see as the value itself: so its clone equals it.
#[derive(Drop)]
pub struct Shared<X> {
    pub(crate) arc: Arc<X>,
}

impl<X> Model for Shared<X> {
    ghost use Rattle.std.specs.Arc.{arc_value};

    ghost Value = { X };

    ghost coded = { X.code };

    ghost view = { λ shared. arc_value shared.arc };
}

impl<X: Drop> Clone for Shared<X> {
    ghost is_clone = { λ shared copy. copy ≡ shared };

    fn clone(&self) -> Result<Shared<X>, AllocError> {
        Ok(Shared {
            arc: self.arc.clone()?,
        })
    }
}

impl<X: Drop> Exact for Shared<X> {
    ghost exact = { λ _ _ same. same };
}

impl<X> Shared<X> {
    /// Shares what an `Arc` holds. Takes no memory. Constant time.
    pub fn of(arc: Arc<X>) -> Shared<X>
        ensures { result ≡ arc_value arc }
    {
        Shared { arc }
    }

    /// The `Arc`. Takes no memory. Constant time.
    pub fn arc(&self) -> &Arc<X>
        ensures { arc_value result.now ≡ self.now }
    {
        &self.arc
    }

    /// The value. Takes no memory. Constant time.
    pub fn value(&self) -> &X
        ensures { result.now ≡ self.now }
    {
        &self.arc
    }
}

impl<X: Drop> Shared<X> {
    /// Puts a value behind an `Arc`, or `NoMemory` where an allocation failed. Constant time.
    pub fn new(alloc: Global, value: X) -> Result<Shared<X>, NoMemory>
        ensures { IfOk result (λ shared. shared ≡ value) }
    {
        Ok(Shared {
            arc: Arc::new(alloc, value)?,
        })
    }
}
