//! Looks for the entries of a file that share a code point with some of the spans.

use crate::span_order::SpanOrder;
use crate::stored_item::StoredItem;
use part_list::{Entry, Reach, Seek};

/// Passes the entries whose code points, from the first to the last one, share one with some of the spans.
#[derive(Clone, Copy)]
pub struct Meeting<'a> {
    /// The spans.
    pub spans: &'a SpanOrder,
}

impl<'a> Seek<StoredItem> for Meeting<'a> {
    ghost use Rattle.release_rows.specs.Meetings.{entry_meets};

    ghost passing = { λ meeting. entry_meets meeting.spans.now };

    fn passes(&self, entry: &Entry<StoredItem>) -> bool {
        self.spans.meets(entry.code, entry.last)
    }

    fn skips(&self, reach: Reach) -> bool {
        !self.spans.meets(reach.least, reach.most)
    }
}
