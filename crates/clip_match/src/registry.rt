//! The registry over the index by which articles are matched.
use clip_segment::LabelledIndex;

/// A registrar over segments with this index.
pub type Registrar = clip_registry::Registrar<LabelledIndex>;

/// A view of the registry, at which articles are matched.
pub type View = clip_registry::View<LabelledIndex>;

/// A merge of such segments that was begun.
pub type MergeJob = clip_registry::MergeJob<LabelledIndex>;
