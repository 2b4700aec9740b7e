//! A keeper in its cluster. The contracts are the laws, and the bodies name other laws at most.
#![tactic(auto)]

ghost use Rattle.std.specs.Prelude.{ℕ, List, Contains};
ghost use Rattle.std.specs.List.{AllByRecursion};
ghost use Rattle.chat_change.specs.declared.change.Change.{Change};
ghost use Rattle.cluster_directory.specs.declared.version.Version.{Version};
ghost use Rattle.gossip_link.specs.Cluster.{World, ClusterEvent, run};
ghost use Rattle.gossip_link.specs.Promises.{ComesFrom, IsReached};
ghost use Rattle.history_file.specs.Changes.{Past};
ghost use Rattle.keeper.specs.Lives.{Life};
ghost use Rattle.keeper_laws.specs.Restart.{HasLivedUpTo, IsAnother, IsBack, IsReturn, restart_with};
ghost use Rattle.keeper_laws.specs.Recovered.{IsRecovered, MayCome};

/// Whatever may come to a node comes from what some node made.
pub fn what_may_come_was_made()
    ensures { (w : World) → IsReached w → (c : Change) → MayCome w c → ComesFrom w.made c }
{
    gossip_link::laws::cluster();
}

/// A keeper that starts again from its file is a node of its cluster as any other: it restarts in
/// an incarnation that it never had, makes the changes that it found in the file, and takes them.
/// So all that `gossip_link::laws::cluster` promises holds of a cluster with keepers.
pub fn a_restart_is_an_event_of_its_cluster()
    // What these events lead to is reached.
    ensures reached { (w : World) → IsReached w → (name : List ℕ) (version : Version)
        (life : Life) (found said : List Change) → IsReturn (w.nodes name) life found said
        → IsReached (run (restart_with name life.number version found) w) }
    // The node then holds what it found, which says all that its file says of earlier lives, in a
    // life above each of them.
    ensures back { (w : World) (name : List ℕ) (version : Version)
        (life : Life) (found said : List Change) → IsReturn (w.nodes name) life found said
        → IsBack (w.nodes name) life.number found said
        ((run (restart_with name life.number version found) w).nodes name) }
    // What its file has after any lives, whatever crashes came between, brings nothing new.
    ensures made { (w : World) → IsReached w → (name : List ℕ) (version : Version) (number : ℕ)
        (lives : List Life) (past : Past) → IsRecovered w lives past
        → (c : Change)
        → ComesFrom (run (restart_with name number version past.changes) w).made c
        → ComesFrom w.made c }
    // Nor does anything else that comes from what some node made before.
    ensures made_before { (w : World) (name : List ℕ) (version : Version) (number : ℕ)
        (found : List Change) → ((c : Change) → Contains found c → ComesFrom w.made c)
        → (c : Change) → ComesFrom (run (restart_with name number version found) w).made c
        → ComesFrom w.made c }
    // Until it starts again, whatever happens, it has no life above that one.
    ensures until { (w : World) (name : List ℕ) (n : ℕ) (events : List ClusterEvent)
        → HasLivedUpTo n (w.nodes name) → AllByRecursion (IsAnother name) events
        → HasLivedUpTo n ((run events w).nodes name) }
{
    gossip_link::laws::cluster();
    keeper::laws::nothing_else_is_kept();
    history_file::laws::files_have_one_past();
    what_may_come_was_made();
}
