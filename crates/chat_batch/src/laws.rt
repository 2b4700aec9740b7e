//! Laws of answers and of what is written, from `chat_query`.

pub use chat_query::laws::{
    answers_are_lines, answers_are_of_the_normal_form, answers_are_of_the_own_past,
    what_is_written_is_lines, what_tags_tell,
};
