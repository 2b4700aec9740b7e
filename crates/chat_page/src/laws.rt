//! Laws of pages, from `chat_query`.

pub use chat_query::laws::{
    pages_are_of_posts, pages_are_of_the_normal_form, pages_are_of_the_own_past,
    reading_backward_gives_each_record_once, reading_forward_gives_each_later_record_once,
    targets_lists_buffers_by_their_latest,
};
