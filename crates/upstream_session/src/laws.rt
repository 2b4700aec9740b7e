//! What holds of every list of lines of a server and of lines for it, each with its moment.
ghost use Rattle.std.specs.Prelude.{◌≡◌, ◌≤◌, ◌+◌, ◌⊎◌, [], List, ℕ, true, false, None, Some};
ghost use Rattle.std.specs.List.{AllByRecursion, IsDistinct};
ghost use Rattle.std.specs.Str.{bytes_eq};
ghost use Rattle.irc_line.specs.declared.line.TagLimit.TheVariants.{Server};
ghost use Rattle.irc_line.specs.Read.{read};
ghost use Rattle.cluster_directory.specs.Entry.{after_join};
ghost use Rattle.upstream_session.specs.Messages.{made_text};
ghost use Rattle.upstream_session.specs.Step.{new};
ghost use Rattle.upstream_session.specs.Sayings.{without_ending};
ghost use Rattle.upstream_session.specs.Session.{start, say, joined, JoinsNone};
ghost use Rattle.upstream_session.specs.Refusal.{refuses, refusal_after, IsShown};
ghost use Rattle.upstream_session.specs.Passing.{is_passed_on, IsRelayAtMost};
ghost use Rattle.upstream_session.specs.Events.{ServerEvent, Line, after, effects_of, run, all_effects, IsOwnEffect, IsUnheard, IsWelcome, id_given, IsIdOf, HasPost, ids_made, tags_given, HasTags, IsSentAsKept, HasClose, EndsAtClose};
ghost use Rattle.upstream_session.specs.Standing.{WritesOneLine, ConfigStands, EntryStands, EventStands};
ghost use Rattle.cluster_directory.specs.declared.config.SessionConfig.{SessionConfig};
ghost use Rattle.upstream_session.specs.declared.connection.ServerSession.{ServerSession};
ghost use Rattle.upstream_session.specs.declared.connection.TheConstants.{LAST_SERIAL};

/// A session changes the past of its own account and network alone: each change that it puts is a post or a redaction in a
/// buffer of these, and they never change.
pub fn changes_are_its_own()
    ensures puts { (u : ServerSession) (events : List ServerEvent)
        → AllByRecursion (IsOwnEffect u.home) (all_effects u events) }
    ensures same { (u : ServerSession) (events : List ServerEvent) → (run u events).home ≡ u.home }
{}

/// No id is made twice. A post has the id that its line bears, or one that is made of the serial number. The serial number
/// rises by one for each id that is made and put, never else, and its last value is never passed. So all ids that a
/// session makes are different.
pub fn ids_are_made_once()
    ensures each { (u : ServerSession) (event : ServerEvent)
        → AllByRecursion (IsIdOf u (after u event) (id_given event)) (effects_of u event) }
    ensures counted { (u : ServerSession) (event : ServerEvent) → ((after u event).serial ≡ u.serial)
        ⊎ (((after u event).serial ≡ u.serial + 1)
        × HasPost (made_text u.home u.serial) (effects_of u event)) }
    ensures last { (u : ServerSession) (event : ServerEvent)
        → u.serial ≤ LAST_SERIAL → (after u event).serial ≤ LAST_SERIAL }
    ensures once { (u : ServerSession) (events : List ServerEvent)
        → u.serial ≤ LAST_SERIAL → IsDistinct bytes_eq (ids_made u events) }
{}

/// A message is kept with the client-only tags of its own line: of the server's line, or of a client's line as it goes to
/// the server.
pub fn tags_are_those_of_the_line()
    ensures { (u : ServerSession) (event : ServerEvent)
        → AllByRecursion (HasTags (tags_given u event)) (effects_of u event) }
{}

/// A message that a client says and that is kept has the tags that it goes to the server with.
pub fn kept_tags_are_sent()
    ensures { (u : ServerSession) (now : ℕ) (bytes : List ℕ) → AllByRecursion
        (IsSentAsKept (without_ending bytes) (say u now bytes).effects) (say u now bytes).effects }
{}

/// Until the server has welcomed a new session (001), nothing is put and nothing is passed on.
pub fn nothing_is_heard_before_the_welcome()
    ensures { (config : SessionConfig) (node : List ℕ) (incarnation first_serial : ℕ)
        (events : List ServerEvent) → AllByRecursion (λ e. ¬ IsWelcome e) events
        → AllByRecursion IsUnheard (all_effects (new config node incarnation first_serial) events) }
{}

/// Close comes last among the effects of a line, and closes the session; nothing else does. After it there are no effects,
/// and nothing changes.
pub fn nothing_follows_close()
    ensures last { (u : ServerSession) (event : ServerEvent) → EndsAtClose (effects_of u event) }
    ensures closed { (u : ServerSession) (event : ServerEvent)
        → HasClose (effects_of u event) → (after u event).is_closed ≡ true }
    ensures only { (u : ServerSession) (event : ServerEvent) → u.is_closed ≡ false
        → (after u event).is_closed ≡ true → HasClose (effects_of u event) }
    ensures stays { (u : ServerSession) (events : List ServerEvent)
        → u.is_closed ≡ true → run u events ≡ u }
    ensures silent { (u : ServerSession) (events : List ServerEvent)
        → u.is_closed ≡ true → all_effects u events ≡ [] }
    ensures start { (u : ServerSession) → u.is_closed ≡ true → start u ≡ [] }
{}

/// Each text that a session writes, to its server or to be passed on to clients, is one line: CR LF stands at its end, and no
/// NUL, CR or LF before that. It is so where its nick, its user name and its channels are such as a node's configuration
/// has, and what clients say through it is single lines. How long a line is isn't said: a server cuts what is longer than
/// 512 bytes, as a PONG or a REDACT may be by one.
pub fn each_text_is_one_line()
    ensures start { (config : SessionConfig) (node : List ℕ) (incarnation first_serial : ℕ)
        → ConfigStands config
        → AllByRecursion WritesOneLine (start (new config node incarnation first_serial)) }
    ensures later { (config : SessionConfig) (node : List ℕ) (incarnation first_serial : ℕ)
        (events : List ServerEvent) → ConfigStands config → AllByRecursion EventStands events
        → AllByRecursion WritesOneLine
        (all_effects (new config node incarnation first_serial) events) }
{}

/// In each state of a session its present nick and its channels are such as may stand in a line, whatever its server and
/// the clients say.
pub fn entries_stand()
    ensures { (config : SessionConfig) (node : List ℕ) (incarnation first_serial : ℕ)
        (events : List ServerEvent) → ConfigStands config
        → EntryStands (run (new config node incarnation first_serial) events).entry }
{}

/// A session says of each line of the server by which it joins a channel that it does. Where it says so, that line adds this
/// channel to it and changes nothing else of it, and it says the same once the line was taken. Any other line joins none.
pub fn what_is_joined_is_told()
    ensures joined { (u : ServerSession) (now : ℕ) (bytes channel : List ℕ)
        → joined u bytes ≡ Some channel
        → after u (Line now bytes) ≡ record u { entry = after_join u.entry channel } }
    ensures later { (u : ServerSession) (now : ℕ) (bytes channel : List ℕ)
        → joined u bytes ≡ Some channel
        → joined (after u (Line now bytes)) bytes ≡ Some channel }
    ensures others { (u : ServerSession) (now : ℕ) (bytes : List ℕ) → joined u bytes ≡ None
        → JoinsNone u.entry.channels (after u (Line now bytes)).entry.channels }
{}

/// The words by which a server refused its session change by ERROR and 465 alone, and by 432 before the network is up (RFC 2812,
/// sections 3.7.4 and 5.2), and are at most 200 bytes of printable ASCII.
pub fn refusals_are_few_printable_words()
    ensures others { (u : ServerSession) (before bytes : List ℕ)
        → refuses u.entry.is_up (read Server bytes) ≡ false → refusal_after u before bytes ≡ before }
    ensures first { IsShown [] }
    ensures shown { (u : ServerSession) (before bytes : List ℕ)
        → IsShown before → IsShown (refusal_after u before bytes) }
{}

/// A line that is only passed on leaves the session and the words of its refusal as they were, and gives that one line for
/// clients at most.
pub fn what_is_only_passed_on_changes_nothing()
    ensures session { (u : ServerSession) (now : ℕ) (bytes : List ℕ)
        → is_passed_on bytes ≡ true → after u (Line now bytes) ≡ u }
    ensures refusal { (u : ServerSession) (before bytes : List ℕ)
        → is_passed_on bytes ≡ true → refusal_after u before bytes ≡ before }
    ensures effects { (u : ServerSession) (now : ℕ) (bytes : List ℕ)
        → is_passed_on bytes ≡ true → IsRelayAtMost (effects_of u (Line now bytes)) }
{}
