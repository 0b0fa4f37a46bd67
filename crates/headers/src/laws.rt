//! Theorems, as functions with an empty body. To cite one in a proof, call it.

pub use crate::content_type::content_type_reads_back;
pub use headers_caching::{cache_control_survives_cuts, directives_read_back};
pub use headers_conditional::{
    if_match_of_own_tag, if_none_match_of_own_tag, if_range_reads_back, tag_conditions_read_all,
};
pub use headers_core::{
    date_reads_back, dates_by_the_calendar, encodes_as_before, lines_read_back, lists_read_all,
    lists_read_back, numbers_read_back, same_by_writes, tag_ranges_read_back, tags_read_back,
    texts_read_back, words_read_back,
};
pub use headers_cors::{allow_origin_of_own_text, request_methods_read_back};
pub use headers_hosts::{hosts_read_back, origin_of_own_text};
pub use headers_lists::{policies_read_back, security_reads_back};
pub use headers_map::{reads_the_inserted, reads_the_last_put};
pub use headers_ranges::{content_ranges_read_back, ranges_read_back};
