//! Laws of pages, of answers and of what is written. Their contracts are the laws, and their bodies are empty.

ghost use Rattle.std.specs.Prelude.{◌≡◌, ◌≤◌, ◌<◌, ◌∷◌, ◌++◌, [], ℕ, List, true, min, take, reverse, Some, IfSome};
ghost use Rattle.std.specs.List.{AllByRecursion, flat_map};
ghost use Rattle.irc_line.specs.declared.line.TagLimit.{TagLimit};
ghost use Rattle.irc_line.specs.declared.line.TagLimit.TheVariants.{Server};
ghost use Rattle.irc_line.specs.Line.{Reading, Reads};
ghost use Rattle.irc_line.specs.Lines.{AreLines};
ghost use Rattle.irc_caps.specs.declared.CapSet.{CapSet};
ghost use Rattle.irc_tags.specs.TagList.{Tag};
ghost use Rattle.irc_reply.specs.Standing.{IsCluster};
ghost use Rattle.chat_change.specs.Words.{is_target};
ghost use Rattle.chat_change.specs.Record.{Record};
ghost use Rattle.chat_change.specs.Lawful.{IsLawfulRecord, IsLawfulChange};
ghost use Rattle.chat_change.specs.declared.change.Change.{Change};
ghost use Rattle.chat_history.specs.History.{norm, changes_of};
ghost use Rattle.chat_history.specs.Visible.{visible};
ghost use Rattle.chat_query.specs.Scope.{Scope};
ghost use Rattle.chat_query.specs.declared.query.Query.{Query};
ghost use Rattle.chat_query.specs.declared.query.Query.TheVariants.{Targets};
ghost use Rattle.chat_query.specs.declared.facts.Facts.{Facts};
ghost use Rattle.chat_query.specs.Buffers.{scope_of};
ghost use Rattle.chat_query.specs.Reference.{reference_text, greatest_reference};
ghost use Rattle.chat_query.specs.Standing.{IsReference, IsSoundSession, CanBeListed};
ghost use Rattle.chat_query.specs.Page.{of_buffers, page, buffer_of, last};
ghost use Rattle.chat_query.specs.Listing.{IsListing};
ghost use Rattle.chat_query.specs.Walk.{FollowPages, LatestPages};
ghost use Rattle.chat_query.specs.Posted.{IsOfPosts};
ghost use Rattle.chat_query.specs.OwnPast.{own_past, SameOwnPast};
ghost use Rattle.chat_query.specs.Message.{message_line, record_text, live_text};
ghost use Rattle.chat_query.specs.Batch.{history_text, targets_text};
ghost use Rattle.chat_query.specs.Told.{HasOwn, told_of, told_in_batch, TellsTags};
ghost use Rattle.chat_query.specs.Answers.{answer_of};

/// A page, or that a message is unknown, depends on the normal form alone.
pub fn pages_are_of_the_normal_form()
    ensures same { (a b : List Change) (scope : Scope) (query : Query) → norm a ≡ norm b
        → page a scope query ≡ page b scope query }
    ensures normal { (a : List Change) (scope : Scope) (query : Query) → page (changes_of
        (norm a)) scope query ≡ page a scope query }
{}

/// A page has only records that were posted in the buffer that the query names. TARGETS lists only buffers of the scope's
/// account and network, each by the moment of a record that was posted in it.
pub fn pages_are_of_posts()
    ensures { (changes : List Change) (scope : Scope) (query : Query) →
        IfSome (page changes scope query) (IsOfPosts changes scope query) }
{}

/// A page depends on the changes of the asker's own account and network and the floors of the account alone, and is the
/// same whatever happens in other buffers: two sets of changes have equal pages where those changes have one normal form, so also where they are the same.
pub fn pages_are_of_the_own_past()
    ensures alone { (changes : List Change) (scope : Scope) (query : Query) →
        page (own_past scope changes) scope query ≡ page changes scope query }
    ensures normal { (a b : List Change) (scope : Scope) (query : Query) →
        norm (own_past scope a) ≡ norm (own_past scope b) →
        page a scope query ≡ page b scope query }
    ensures members { (a b : List Change) (scope : Scope) (query : Query) →
        SameOwnPast scope a b → page a scope query ≡ page b scope query }
{}

/// What TARGETS finds between two moments is one list: the buffers of the scope whose latest visible record lies strictly
/// between them, each once, by the moment of that record and then by target. The page is the first of these where the
/// moments rise and the last where they fall, as many as the limits allow, and empty where the moments are equal (IRCv3
/// draft/chathistory, "TARGETS").
pub fn targets_lists_buffers_by_their_latest()
    ensures list { (changes : List Change) (scope : Scope) (t u : ℕ) →
        (found : List (ℕ × List ℕ)) × IsListing changes scope t u found }
    ensures rising { (changes : List Change) (scope : Scope) (t u limit : ℕ)
        (found : List (ℕ × List ℕ)) → t < u → IsListing changes scope t u found →
        page changes scope (Targets t u limit)
        ≡ Some (of_buffers (take (min limit scope.maximum) found)) }
    ensures falling { (changes : List Change) (scope : Scope) (t u limit : ℕ)
        (found : List (ℕ × List ℕ)) → u < t → IsListing changes scope t u found →
        page changes scope (Targets t u limit)
        ≡ Some (of_buffers (last (min limit scope.maximum) found)) }
    ensures equal { (changes : List Change) (scope : Scope) (t limit : ℕ) →
        page changes scope (Targets t t limit) ≡ Some (of_buffers []) }
{}

/// With the set of changes unchanged, AFTER by the last message of the page before, repeated from a visible message until
/// a page is empty, ends and gives each later visible record once, in order.
pub fn reading_forward_gives_each_later_record_once()
    ensures gives { (changes : List Change) (scope : Scope) (target : List ℕ) (limit : ℕ)
        (earlier later : List Record) (r : Record)
        → 0 < limit → 0 < scope.maximum → visible changes (buffer_of scope target) ≡ earlier ++ r
        ∷ later
        → (pages : List (List Record)) → FollowPages changes scope target limit r.id pages
        → flat_map (λ records. records) pages ≡ later }
    ensures ends { (changes : List Change) (scope : Scope) (target : List ℕ) (limit : ℕ)
        (earlier later : List Record) (r : Record)
        → 0 < limit → 0 < scope.maximum → visible changes (buffer_of scope target) ≡ earlier ++ r
        ∷ later
        → (pages : List (List Record)) × FollowPages changes scope target limit r.id pages }
{}

/// With the set of changes unchanged, LATEST and then BEFORE by the first message of the page before, repeated until a
/// page is empty, ends and gives every visible record once; the pages come from the last to the first.
pub fn reading_backward_gives_each_record_once()
    ensures gives { (changes : List Change) (scope : Scope) (target : List ℕ) (limit : ℕ)
        → 0 < limit → 0 < scope.maximum
        → (pages : List (List Record)) → LatestPages changes scope target limit pages
        → flat_map (λ records. records) (reverse pages) ≡ visible changes (buffer_of scope target) }
    ensures ends { (changes : List Change) (scope : Scope) (target : List ℕ) (limit : ℕ)
        → 0 < limit → 0 < scope.maximum
        → (pages : List (List Record)) × LatestPages changes scope target limit pages }
{}

/// An answer depends on the normal form of the set of changes alone, for every line: also for a selector that names a
/// message that was redacted, or that lies below the retention floor.
pub fn answers_are_of_the_normal_form()
    ensures same { (a b : List Change) (facts : Facts) (line : Reading) → norm a ≡ norm b
        → answer_of a facts line ≡ answer_of b facts line }
    ensures normal { (a : List Change) (facts : Facts) (line : Reading)
        → answer_of (changes_of (norm a)) facts line ≡ answer_of a facts line }
{}

/// An answer depends on the changes of the asker's own account and network alone, and is the same whatever happens in other
/// buffers: two sets of changes give equal answers where those changes have one normal form, so also where they are the
/// same.
pub fn answers_are_of_the_own_past()
    ensures alone { (changes : List Change) (facts : Facts) (line : Reading) →
        answer_of (own_past (scope_of facts) changes) facts line ≡ answer_of changes facts line }
    ensures normal { (a b : List Change) (facts : Facts) (line : Reading) →
        norm (own_past (scope_of facts) a) ≡ norm (own_past (scope_of facts) b) →
        answer_of a facts line ≡ answer_of b facts line }
    ensures members { (a b : List Change) (facts : Facts) (line : Reading) →
        SameOwnPast (scope_of facts) a b → answer_of a facts line ≡ answer_of b facts line }
{}

/// What is written of lawful records, and of buffers with lawful targets and moments, is lines that read back as the parts
/// that they were written from, within the limits of a server's line: each page of records, each list of buffers and each
/// record that is sent as it comes, whatever capabilities the session holds. Lists of buffers are within those of a
/// client's line too; a record with tags of its own need not be.
pub fn what_is_written_is_lines()
    ensures history { (caps : CapSet) (cluster reference given : List ℕ)
        (records : List Record) → IsCluster cluster → IsReference reference
        → is_target given ≡ true → AllByRecursion IsLawfulRecord records
        → AreLines Server (history_text caps cluster reference given records) }
    ensures targets { (limit : TagLimit) (caps : CapSet) (cluster reference : List ℕ)
        (buffers : List (ℕ × List ℕ)) → IsCluster cluster → IsReference reference
        → AllByRecursion CanBeListed buffers
        → AreLines limit (targets_text caps cluster reference buffers) }
    ensures live { (caps : CapSet) (r : Record) → IsLawfulRecord r
        → AreLines Server (live_text caps r) }
{}

/// What a client reads of the tags of a lawful record's line by [`irc_tags::read_tags`]: in a batch its reference, then the
/// message's id and its moment, and behind these the record's own client-only tags, each as the session's capabilities give
/// it, and nothing else. Their values are as they were before any escape.
pub fn what_tags_tell()
    ensures page { (caps : CapSet) (n : ℕ) (r : Record) (own : List Tag)
        → n ≤ greatest_reference → IsLawfulRecord r → HasOwn r own
        → TellsTags (record_text caps (reference_text n) r) (message_line r)
        (told_in_batch caps (reference_text n) r own) }
    ensures live { (caps : CapSet) (r : Record) (own : List Tag)
        → IsLawfulRecord r → HasOwn r own
        → TellsTags (live_text caps r) (message_line r) (told_of caps r own) }
{}

/// Each answer is lines that read back within the limits of a server's line, whatever line that reads asks for it, where
/// the changes taken are lawful and the session's nick and cluster may stand in a line.
pub fn answers_are_lines()
    ensures { (asked : TagLimit) (changes : List Change) (facts : Facts)
        (bytes : List ℕ) (line : Reading) → AllByRecursion IsLawfulChange changes
        → IsSoundSession facts → Reads asked bytes line
        → AreLines Server (answer_of changes facts line).text }
{}
