//! What holds of every list of lines, each with the directory of its moment, and of the lines that were too long and the
//! answers between them.
ghost use Rattle.std.specs.Prelude.{◌≡◌, ◌≤◌, [], List, ℕ, Some, true, false};
ghost use Rattle.std.specs.List.{AllByRecursion};
ghost use Rattle.irc_line.specs.declared.line.TagLimit.{TagLimit};
ghost use Rattle.chat_change.specs.Record.{Record};
ghost use Rattle.client_session.specs.Hearers.{hears_message};
ghost use Rattle.client_session.specs.Session.{new};
ghost use Rattle.client_session.specs.Standing.{CanNameCluster, greatest_maximum, EventStands, SendsLines};
ghost use Rattle.client_session.specs.Lookup.{MessageName, name_sought};
ghost use Rattle.client_session.specs.Events.{ClientEvent, run, after, effects_of, WasLetIn, IsRegistered, IsAnswer, IsGreeting, IsOwnEffect, IsOfSame, HasClose, EndsAtClose, IsClosed};
ghost use Rattle.chat_query.specs.declared.facts.Facts.{Facts};
ghost use Rattle.client_session.specs.declared.stage.Stage.{Stage};
ghost use Rattle.client_session.specs.declared.stage.Stage.TheVariants.{Registered, Closed};

/// Nobody gets in without the secret. A session that is registered was let in by one of its lines: by the directory of that
/// line, the last password given, or the empty one where none was, is the secret of its account, and its network is one of
/// that account's. The account and the network are those of the last USER, a NICK had come, and nothing held registration
/// back.
pub fn nobody_enters_without_the_secret()
    ensures { (cluster : List ℕ) (maximum : ℕ) (events : List ClientEvent) (f : Facts)
        → run (new cluster maximum) events ≡ Registered f → WasLetIn events f }
{}

/// Before its registration a session puts nothing, asks nothing and sends nothing to the network's server. The line that
/// registers it is answered with lines and questions alone.
pub fn nothing_happens_before_the_door()
    ensures outside { (session : Stage) (event : ClientEvent)
        → ¬ IsRegistered session → ¬ IsRegistered (after session event)
        → AllByRecursion IsAnswer (effects_of session event) }
    ensures entering { (session : Stage) (event : ClientEvent)
        → ¬ IsRegistered session → IsRegistered (after session event)
        → AllByRecursion IsGreeting (effects_of session event) }
{}

/// A session reaches its own past alone. Each change that it puts is a marker of its own account and network, where a step
/// looks for a message is a buffer of these, and they never change.
pub fn each_reaches_its_own_past_alone()
    ensures puts { (session : Stage) (event : ClientEvent)
        → AllByRecursion (IsOwnEffect session) (effects_of session event) }
    ensures looks { (f : Facts) (bytes : List ℕ) (place : MessageName)
        → name_sought (Registered f) bytes ≡ Some place
        → (place.buffer.account ≡ f.account) × (place.buffer.network ≡ f.network) }
    ensures same { (f : Facts) (events : List ClientEvent)
        → IsOfSame f (run (Registered f) events) }
{}

/// Close comes last among the effects of a line, and closes the session; nothing else does. After it there are no effects,
/// and nothing changes.
pub fn nothing_follows_close()
    ensures last { (session : Stage) (event : ClientEvent)
        → EndsAtClose (effects_of session event) }
    ensures closed { (session : Stage) (event : ClientEvent)
        → HasClose (effects_of session event) → after session event ≡ Closed }
    ensures only { (session : Stage) (event : ClientEvent) → ¬ IsClosed session
        → IsClosed (after session event) → HasClose (effects_of session event) }
    ensures stays { (events : List ClientEvent) → run Closed events ≡ Closed }
    ensures silent { (event : ClientEvent) → effects_of Closed event ≡ [] }
{}

/// What a session sends is lines that read back (RFC 2812, section 2.3), before its registration and after it: the refusals
/// and the greeting too. It is so where the cluster's name may stand in a line, and the names, nicks and channels of each
/// directory are such as a configuration may have.
pub fn what_is_sent_is_lines()
    ensures { (limit : TagLimit) (cluster : List ℕ) (maximum : ℕ)
        (events : List ClientEvent) (event : ClientEvent)
        → CanNameCluster cluster → maximum ≤ greatest_maximum
        → AllByRecursion EventStands events → EventStands event
        → AllByRecursion (SendsLines limit) (effects_of (run (new cluster maximum) events) event) }
{}

/// A session without `echo-message` hears nothing of its own, which is what comes from the present nick.
pub fn own_messages_need_echo()
    ensures { (message : Record) (facts : Facts)
        → facts.caps.echo_message ≡ false → hears_message true message facts ≡ false }
{}
