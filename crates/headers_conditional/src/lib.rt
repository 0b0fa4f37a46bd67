//! Headers of validators and conditional requests (RFC 9110, sections 8.8 and 13.1).
#![tactic(auto)]

mod etag;
mod if_match;
mod if_modified_since;
mod if_none_match;
mod if_range;
mod if_unmodified_since;
mod last_modified;
mod tag_condition;

pub use crate::etag::{ETag, InvalidETag, into_tag, tag_of};
pub use crate::if_match::{IfMatch, IfMatchField, if_match_of_own_tag};
pub use crate::if_modified_since::IfModifiedSince;
pub use crate::if_none_match::{IfNoneMatch, IfNoneMatchField, if_none_match_of_own_tag};
pub use crate::if_range::{IfRange, if_range_reads_back};
pub use crate::if_unmodified_since::IfUnmodifiedSince;
pub use crate::last_modified::LastModified;
pub use crate::tag_condition::{TagCondition, tag_conditions_read_all};
