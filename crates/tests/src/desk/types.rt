//! The desk over the index by which articles are matched.
use clip_desk::UpdateLog;
use clip_segment::LabelledIndex;

/// A desk of a registry over the index by which articles are matched.
pub(crate) type Desk<N> = clip_desk::Desk<N, LabelledIndex, UpdateLog>;

/// A seat of such a desk.
pub(crate) type Seat = clip_desk::Seat<LabelledIndex>;

/// The parts of such a desk.
pub(crate) type DeskParts = clip_desk::DeskParts<LabelledIndex, UpdateLog>;

/// What such a desk leaves at its close.
pub(crate) type Closed = clip_desk::Closed<LabelledIndex, UpdateLog>;
