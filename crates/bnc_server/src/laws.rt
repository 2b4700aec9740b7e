//! Laws of scripts. Their contracts are the laws, and their bodies are empty.
ghost use Rattle.std.specs.Prelude.{◌≡◌, ◌++◌, ℕ, List, None};
ghost use Rattle.irc_line.specs.declared.line.TagLimit.TheVariants.{Server};
ghost use Rattle.irc_line.specs.Stream.{Item, items};
ghost use Rattle.chat_change.specs.Faults.{buffer_fault};
ghost use Rattle.chat_history.specs.History.{SameSet};
ghost use Rattle.bnc_server.specs.World.{World};
ghost use Rattle.bnc_server.specs.Script.{start, text_of, script};
ghost use Rattle.bnc_server.specs.ChangeLines.{AreChangeLines, AreLocal, AreAlike, changes_in, world_after};
ghost use Rattle.bnc_server.specs.Printed.{IsPrinted};
ghost use Rattle.bnc_server.specs.Schedule.{IsSchedule};

/// What is printed goes by the sets of changes that the nodes took, whatever their order and repeats, and whether they came
/// as lines, from clients or in packets of other nodes: worlds whose nodes took the same sets print the same, as long as no
/// further packet and no acknowledgement reaches a node. What a packet carries may depend on the order: it has the first
/// 256 of the changes that its receiver still wants.
pub fn answers_are_of_the_set()
    ensures { (one other : World) (items : List Item) → AreAlike one other → AreLocal items
        → text_of one items ≡ text_of other items }
{}

/// Change lines given in another order, or again, don't change what later lines print: behind them these print the same, as
/// long as no packet and no acknowledgement reaches a node.
pub fn order_of_changes_does_not_show()
    ensures later { (w : World) (before items : List Item) → text_of w (before ++ items)
        ≡ text_of w before ++ text_of (world_after w before) items }
    ensures same { (w : World) (one other items : List Item) → AreChangeLines one
        → AreChangeLines other → SameSet (changes_in one) (changes_in other) → AreLocal items
        → text_of (world_after w one) items ≡ text_of (world_after w other) items }
{}

/// All that a script prints is lines that read back, whatever the script. Each line ends with CR LF and has no NUL, CR or
/// LF before that. One that begins with `%` is for whoever wrote the script. Any other is read by
/// [`irc_line::read_line`] as the parts that it was written from, within the limits of a server's line.
pub fn what_is_printed_is_lines()
    ensures { (input account network nick : List ℕ)
        → buffer_fault account network nick ≡ None
        → IsPrinted Server (script input account network nick) }
{}

/// Every script is a schedule of a cluster. Some list of [`gossip_link`]'s events leads to a cluster whose nodes `n1` to
/// `n9` took just what the script's nodes took, live the same lives, and know the same of each other. So what
/// [`gossip_link::laws::cluster`] promises of every cluster holds of the nodes of a script.
pub fn scripts_are_schedules()
    ensures { (input account network nick : List ℕ) →
        IsSchedule (world_after (start account network nick) (items input)) }
{}
