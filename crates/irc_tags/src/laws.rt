//! Laws of tags that are written.
ghost use Rattle.std.specs.Prelude.{◌≡◌, ◌≤◌, ℕ, true, List, length};
ghost use Rattle.std.specs.List.{All};
ghost use Rattle.irc_tags.specs.Value.{value_in, value_text};
ghost use Rattle.irc_tags.specs.Standing.{CanStand, CanStandInLine, HasNoEnd, is_client_only};
ghost use Rattle.irc_tags.specs.TagList.{Tag, tag_list};
ghost use Rattle.irc_tags.specs.Text.{tags_text};
ghost use Rattle.irc_tags.specs.ClientOnly.{client_only_text, is_client_only_text};

/// Each value is read back from what is written of it.
pub fn values_are_read_back()
    ensures { (value : List ℕ) → value_in (value_text value) ≡ value }
{}

/// Each list of tags that may stand as tag data is read back from what is written of it.
pub fn tags_are_read_back()
    ensures { (tags : List Tag) → CanStand tags → tag_list (tags_text tags) ≡ tags }
{}

/// What tag data says may stand as tag data, whatever its bytes.
pub fn tags_that_are_read_can_stand()
    ensures { (bytes : List ℕ) → CanStand (tag_list bytes) }
{}

/// What is written of tags that may stand in a line has no byte that ends the tag data of a line.
pub fn text_stands_in_a_line()
    ensures { (tags : List Tag) → CanStandInLine tags → HasNoEnd (tags_text tags) }
{}

/// Tag data without such a byte gives tags that may stand in a line.
pub fn tags_of_a_line_stand_in_a_line()
    ensures { (bytes : List ℕ) → HasNoEnd bytes → CanStandInLine (tag_list bytes) }
{}

/// What is written of such tag data is no longer than the data.
pub fn text_of_a_line_is_no_longer()
    ensures { (text : List ℕ) → HasNoEnd text → length (tags_text (tag_list text)) ≤ length text }
{}

/// What is written of client-only tags that may stand as tag data, whose keys all begin with `+`, is kept as it stands.
pub fn client_only_text_is_kept()
    ensures { (tags : List Tag) → CanStand tags → All (λ tag. is_client_only tag.0 ≡ true) tags
        → is_client_only_text (tags_text tags) ≡ true }
{}

/// Tag data that is kept as it stands is what is written of its tags, and each of their keys begins with `+`.
pub fn kept_text_is_client_only()
    ensures text { (bytes : List ℕ) → is_client_only_text bytes ≡ true
        → bytes ≡ tags_text (tag_list bytes) }
    ensures keys { (bytes : List ℕ) → is_client_only_text bytes ≡ true
        → All (λ tag. is_client_only tag.0 ≡ true) (tag_list bytes) }
{}

/// The client-only tags of any tag data are written as such text.
pub fn client_only_text_is_client_only()
    ensures { (bytes : List ℕ) → is_client_only_text (client_only_text bytes) ≡ true }
{}

/// The client-only tags of the tag data of a line may stand in a line, and are written no longer than the data.
pub fn client_only_text_stands_in_a_line()
    ensures no_end { (bytes : List ℕ) → HasNoEnd bytes → HasNoEnd (client_only_text bytes) }
    ensures no_longer { (bytes : List ℕ) → HasNoEnd bytes
        → length (client_only_text bytes) ≤ length bytes }
{}
