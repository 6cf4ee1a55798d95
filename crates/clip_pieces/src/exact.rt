//! Items whose clones equal their sources.
ghost use Rattle.std.specs.Prelude.{◌≡◌};

/// A value whose clone equals it, so that a copy of a piece holds the same items.
pub trait Exact: Clone {
    ghost exact: { (value copy : Self) → Self.is_clone value copy → copy ≡ value };
}

impl Exact for bool {
    ghost exact = { λ _ _ same. same };
}

impl Exact for u64 {
    ghost exact = { λ _ _ same. same };
}
