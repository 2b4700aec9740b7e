//! The world of a script: nine nodes, and the directory that their sessions go by.
ghost use Rattle.std.specs.Prelude.{◌≡◌, ◌≢◌, ◌<◌, [], ◌∷◌, ◌++◌, map, length, Ok, IfOk, IfErr, OnOk};
ghost use Rattle.std.specs.Prelude.{false};
ghost use Rattle.byte_text.specs.Writes.{Writes};
ghost use Rattle.change_lines.specs.ChangeLine.{read_change};
ghost use Rattle.client_session.specs.declared.stage.Stage.TheVariants.{Registered};
ghost use Rattle.bnc_server.specs.Command as commands;
ghost use Rattle.bnc_server.specs.Request.{of_change, of_client, over_long, is_change_line, request_in};
ghost use Rattle.bnc_server.specs.Links.{new_node};
ghost use Rattle.bnc_server.specs.World as worlds;
ghost use Rattle.bnc_server.specs.Script as spec;
ghost use Rattle.bnc_server.specs.Schedule.{node_count, ArePlaces};
ghost use Rattle.bnc_server.specs.HeldNode.{held_node, held_world, value_of, HasNodes};
ghost use Rattle.bnc_server.specs.HeldNode.{WritesTextOf, Becomes, EndsBy, IsFaultOf};
ghost use Rattle.bnc_server.specs.Faults.{MayRefuse, MayStopSending, MayEnd, MayEndCommand, greatest_incarnation};

use crate::command::{NodeCommand, command_of};
use crate::fault::ReplayFault;
use crate::node::{Node, all_hear, lives_of, push};
use crate::reply::{put_bad_field, put_bad_form, put_link_fault};
use byte_text::{NoMemory, Text, begins_with};
use chat_change::{Buffer, Change, Extent};
use chat_query::{Facts, Identity};
use client_session::{ConfiguredAccount, Directory, Entry, Network};
use gossip_delta::{ChangeLineFault, is_text, read_change_in};
use gossip_link::{Ack, Life, LinkFault, NodeName};
use irc_caps::CapSet;
use std::alloc::Global;
use std::io::Write;
use std::marker::Model;

/// The world of a script.
#[derive(Drop)]
pub(crate) struct World {
    directory: Directory,
    // of each new session
    facts: Facts,
    nodes: Vec<Node>,
    // the place of the node that the client talks to
    selected: usize,
    // the buffer of the latest change that was read
    latest: Option<Buffer>,
}

impl Model for World {
    ghost use Rattle.std.specs.Coded.{codes};
    ghost use Rattle.chat_history.specs.Codes.{coded_state};
    ghost use Rattle.bnc_server.specs.Schedule.{node_count};
    ghost use Rattle.bnc_server.specs.HeldNode.{HeldWorld};
    ghost use Rattle.std.specs.Prelude.{◌≡◌, ◌<◌, length};

    ghost Value = { HeldWorld };

    ghost coded = { Prim.hlevel (codes, coded_state) };

    ghost view = { λ w. record {
      directory = w.directory;
      facts = w.facts;
      nodes = w.nodes.items;
      selected = w.selected;
    } };

    ghost invariant = { λ w. (length w.nodes.items ≡ node_count) × (w.selected < node_count) };
}

// A network that isn't up.
fn network_of(alloc: Global, network: &[u8], nick: &[u8]) -> Result<Network, NoMemory>
    ensures { IfOk result (λ made. made ≡ record {
      name = network.now;
      entry = record { is_up = false; nick = nick.now; channels = []; takes_redact = false };
    }) }
{
    let name = Text::new(alloc, network)?;
    let nick = Text::new(alloc, nick)?;
    let entry = Entry::new(false, nick, Vec::new(alloc), false);
    Ok(Network::new(name, entry))
}

// An account of that name without a secret, with its one network, which isn't up.
fn account_of(
    alloc: Global,
    account: &[u8],
    network: &[u8],
    nick: &[u8],
) -> Result<ConfiguredAccount, NoMemory>
    ensures { IfOk result (λ made. made ∷ [] ≡ spec.directory_of account.now network.now nick.now) }
{
    let name = Text::new(alloc, account)?;
    let mut made = ConfiguredAccount::new(alloc, name, Text::of(Vec::new(alloc)));
    let network = network_of(alloc, network, nick)?;
    made.add(network)?;
    Ok(made)
}

// The one account with its one network.
fn directory_of(
    alloc: Global,
    account: &[u8],
    network: &[u8],
    nick: &[u8],
) -> Result<Directory, NoMemory>
    ensures { IfOk result
        (λ directory. directory ≡ spec.directory_of account.now network.now nick.now) }
{
    let account = account_of(alloc, account, network, nick)?;
    let mut directory = Directory::new(alloc);
    directory.add(account)?;
    Ok(directory)
}

// The facts of a session that holds all capabilities.
fn facts_of(alloc: Global, account: &[u8], network: &[u8], nick: &[u8]) -> Result<Facts, NoMemory>
    ensures { IfOk result
        (λ facts. facts ≡ spec.facts_of account.now network.now nick.now) }
{
    let identity = Identity {
        account,
        network,
        nick,
    };
    Facts::new(alloc, identity, CapSet::all(), b"bnc.example", 100)
}

fn copy_of(alloc: Global, facts: &Facts) -> Result<Facts, NoMemory>
    ensures { IfOk result (λ copy. copy ≡ facts.now) }
{
    let identity = Identity {
        account: facts.account.as_bytes(),
        network: facts.network.as_bytes(),
        nick: facts.nick.as_bytes(),
    };
    let cluster = facts.cluster.as_bytes();
    let mut copy = Facts::new(alloc, identity, facts.caps, cluster, facts.maximum)?;
    copy.reference = facts.reference;
    Ok(copy)
}

fn first_life(alloc: Global, name: &[u8]) -> Result<Life, NoMemory>
    ensures { IfOk result (λ life. life ≡ record { node = name.now; incarnation = 1 }) }
{
    match NodeName::new(alloc, name) {
        Ok(name) => Ok(Life::new(name, 1)),
        Err(_) => Err(NoMemory),
    }
}

// One life more, of the node of that name.
fn push_life(alloc: Global, lives: &mut Vec<Life>, name: &[u8]) -> Result<(), NoMemory>
    ensures { IfOk result (λ _. lives.new.items
        ≡ lives.old.items ++ record { node = name.now; incarnation = 1 } ∷ []) }
{
    let life = first_life(alloc, name)?;
    push(lives, life)
}

fn first_lives(alloc: Global) -> Result<Vec<Life>, NoMemory>
    ensures { IfOk result (λ lives. lives.items ≡ spec.first_lives) }
{
    let mut lives = Vec::new(alloc);
    push_life(alloc, &mut lives, b"n1")?;
    push_life(alloc, &mut lives, b"n2")?;
    push_life(alloc, &mut lives, b"n3")?;
    push_life(alloc, &mut lives, b"n4")?;
    push_life(alloc, &mut lives, b"n5")?;
    push_life(alloc, &mut lives, b"n6")?;
    push_life(alloc, &mut lives, b"n7")?;
    push_life(alloc, &mut lives, b"n8")?;
    push_life(alloc, &mut lives, b"n9")?;
    Ok(lives)
}

// A node in each of those lives.
fn first_nodes(alloc: Global, facts: &Facts, lives: &[Life]) -> Result<Vec<Node>, NoMemory>
    requires { length lives.now ≡ node_count }
    ensures { IfOk result (λ nodes. nodes.items ≡ map held_node
        (map (λ life. new_node (Registered facts.now) life lives.now spec.none_late) lives.now)) }
{
    let mut nodes = Vec::new(alloc);
    for life in lives {
        let node = Node::new(alloc, copy_of(alloc, facts)?, life, lives)?;
        push(&mut nodes, node)?;
    }
    Ok(nodes)
}

// Nine nodes in their first lives. Each has heard of all.
fn nine_nodes(alloc: Global, facts: &Facts) -> Result<Vec<Node>, NoMemory>
    ensures { IfOk result (λ nodes. nodes.items ≡ map held_node
        (map (spec.first_node (Registered facts.now)) spec.first_lives)) }
{
    let lives = first_lives(alloc)?;
    first_nodes(alloc, facts, &lives)
}

fn is_change_line(text: &[u8]) -> bool
    ensures { result ≡ is_change_line text.now }
{
    let n = text.len().min(2);
    is_text(&text[..n], b"C ")
}

// Tells how an acknowledgement was refused, if it was.
fn put_answer<W: Write>(answer: Result<(), LinkFault>, writer: &mut W) -> Result<(), ReplayFault>
    ensures text { Writes W.contents writer.old writer.new result (worlds.ack_text answer) }
    ensures fault { IfErr result
        (λ fault. (fault ≡ ReplayFault.Write) × (worlds.ack_text answer ≢ [])) }
{
    match answer {
        Ok(()) => Ok(()),
        Err(fault) => put_link_fault(writer, fault),
    }
}

impl World {
    pub(crate) fn new(
        alloc: Global,
        account: &[u8],
        network: &[u8],
        nick: &[u8],
    ) -> Result<World, NoMemory>
        ensures { IfOk result
            (λ world. world ≡ held_world (spec.start account.now network.now nick.now)) }
    {
        let directory = directory_of(alloc, account, network, nick)?;
        let facts = facts_of(alloc, account, network, nick)?;
        let nodes = nine_nodes(alloc, &facts)?;
        Ok(World {
            directory,
            facts,
            nodes,
            selected: 0,
            latest: None,
        })
    }

    // Keeps a clone of the change's buffer, if it is in one, unless the buffer has too many owners.
    fn keep_buffer(&mut self, change: &Change)
        ensures { self.new ≡ self.old }
    {
        let Extent::Buffer(buffer) = change.key().extent() else {
            return;
        };
        if let Ok(buffer) = buffer.try_clone() {
            self.latest = Some(buffer);
        }
    }

    // The change that a line spells. Its buffer is kept, since the next line may well be of the same one.
    fn read(&mut self, alloc: Global, text: &[u8]) -> Result<Change, ChangeLineFault>
        ensures world { self.new ≡ self.old }
        ensures made { IfOk result (λ change. read_change text.now ≡ Ok change) }
        ensures refused { IfErr result (λ fault. IsFaultOf (read_change text.now) fault) }
    {
        match read_change_in(alloc, self.latest.as_ref(), text) {
            Err(fault) => Err(fault),
            Ok(change) => {
                self.keep_buffer(&change);
                Ok(change)
            }
        }
    }

    fn take(&mut self, change: Change) -> Result<(), ReplayFault>
        ensures world { Becomes result held_world self.old
            (λ w. (spec.outcome w (of_change (Ok change))).world) self.new }
        ensures fault { EndsBy result held_world self.old
            (λ w. MayRefuse (spec.selected_node w) change) }
    {
        self.nodes[self.selected].take(change)
    }

    fn serve_change<W: Write>(
        &mut self,
        alloc: Global,
        text: &[u8],
        writer: &mut W,
    ) -> Result<(), ReplayFault>
        ensures text { WritesTextOf W.contents writer.old writer.new result held_world self.old
            (λ w. (spec.outcome w (of_change (read_change text.now))).text) }
        ensures world { Becomes result held_world self.old
            (λ w. (spec.outcome w (of_change (read_change text.now))).world) self.new }
        ensures fault { EndsBy result held_world self.old
            (λ w. MayEnd w (of_change (read_change text.now))) }
    {
        match self.read(alloc, text) {
            Ok(change) => self.take(change),
            Err(ChangeLineFault::BadForm) => put_bad_form(writer),
            Err(ChangeLineFault::BadField) => put_bad_field(writer),
            Err(ChangeLineFault::NoMemory) => Err(ReplayFault::NoMemory),
        }
    }

    // Hands a line to the session.
    fn serve_client<W: Write>(
        &mut self,
        alloc: Global,
        text: &[u8],
        writer: &mut W,
    ) -> Result<(), ReplayFault>
        ensures text { WritesTextOf W.contents writer.old writer.new result held_world self.old
            (λ w. (spec.outcome w (of_client text.now)).text) }
        ensures world { Becomes result held_world self.old
            (λ w. (spec.outcome w (of_client text.now)).world) self.new }
        ensures fault { EndsBy result held_world self.old (λ w. MayEnd w (of_client text.now)) }
    {
        self.nodes[self.selected].serve_line(alloc, &self.directory, text, writer)
    }

    // A node makes a packet for another, which takes it and acknowledges it.
    fn send(
        &mut self,
        alloc: Global,
        sender: usize,
        receiver: usize,
    ) -> Result<Option<Ack>, ReplayFault>
        requires { ArePlaces sender receiver }
        ensures ack { IfOk result (λ ack. (w : worlds.World) → self.old ≡ held_world w
            → ack ≡ worlds.ack_of w sender receiver) }
        ensures world { Becomes result held_world self.old
            (λ w. worlds.after_packet_of w sender receiver) self.new }
        ensures fault { EndsBy result held_world self.old
            (λ w. MayStopSending w sender receiver) }
    {
        match self.nodes[sender].make_for(alloc, receiver)? {
            None => Ok(None),
            Some(packet) => self.nodes[receiver].take_from(alloc, sender, &packet),
        }
    }

    fn exchange<W: Write>(
        &mut self,
        alloc: Global,
        sender: usize,
        receiver: usize,
        writer: &mut W,
    ) -> Result<(), ReplayFault>
        requires { ArePlaces sender receiver }
        ensures text { WritesTextOf W.contents writer.old writer.new result held_world self.old
            (λ w. (worlds.after_command w (commands.exchange sender receiver)).text) }
        ensures world { Becomes result held_world self.old
            (λ w. (worlds.after_command w (commands.exchange sender receiver)).world) self.new }
        ensures fault { EndsBy result held_world self.old
            (λ w. MayEndCommand w (commands.exchange sender receiver)) }
    {
        match self.send(alloc, sender, receiver)? {
            None => Ok(()),
            Some(ack) => put_answer(self.nodes[sender].take_ack(receiver, &ack), writer),
        }
    }

    fn lose(&mut self, alloc: Global, sender: usize, receiver: usize) -> Result<(), ReplayFault>
        requires { ArePlaces sender receiver }
        ensures world { Becomes result held_world self.old
            (λ w. worlds.after_sending w sender receiver) self.new }
        ensures fault { IfErr result (λ fault. fault ≡ ReplayFault.NoMemory) }
    {
        let _ = self.nodes[sender].make_for(alloc, receiver)?;
        Ok(())
    }

    fn hold_back(
        &mut self,
        alloc: Global,
        sender: usize,
        receiver: usize,
    ) -> Result<(), ReplayFault>
        requires { ArePlaces sender receiver }
        ensures world { Becomes result held_world self.old
            (λ w. (worlds.after_command w (commands.hold_back sender receiver)).world) self.new }
        ensures fault { EndsBy result held_world self.old
            (λ w. MayEndCommand w (commands.hold_back sender receiver)) }
    {
        if let Some(ack) = self.send(alloc, sender, receiver)? {
            self.nodes[sender].hold_back(receiver, ack);
        }
        Ok(())
    }

    fn hand_over<W: Write>(
        &mut self,
        sender: usize,
        receiver: usize,
        writer: &mut W,
    ) -> Result<(), ReplayFault>
        requires { ArePlaces sender receiver }
        ensures text { WritesTextOf W.contents writer.old writer.new result held_world self.old
            (λ w. (worlds.after_command w (commands.hand_over sender receiver)).text) }
        ensures world { Becomes result held_world self.old
            (λ w. (worlds.after_command w (commands.hand_over sender receiver)).world) self.new }
        ensures fault { EndsBy result held_world self.old
            (λ w. MayEndCommand w (commands.hand_over sender receiver)) }
    {
        match self.nodes[sender].take_late(receiver) {
            None => Ok(()),
            Some(answer) => put_answer(answer, writer),
        }
    }

    // The present lives, where the node at a place has begun that one.
    fn lives_with(&self, alloc: Global, place: usize, life: &Life) -> Result<Vec<Life>, NoMemory>
        requires { place < node_count }
        ensures count { IfOk result (λ lives. length lives.items ≡ node_count) }
        ensures lives { IfOk result (λ lives. (w : worlds.World) → self.now ≡ held_world w
            → lives.items ≡ worlds.lives_with w place life.now) }
    {
        let mut lives = lives_of(alloc, &self.nodes)?;
        lives[place] = life.try_clone(alloc)?;
        Ok(lives)
    }

    // The next life of the node at a place. Where there is no further incarnation the fault is Read.
    fn next_life(&self, alloc: Global, place: usize) -> Result<Life, ReplayFault>
        requires { place < node_count }
        ensures life { IfOk result (λ life. (w : worlds.World) → self.now ≡ held_world w
            → life ≡ worlds.next_life (worlds.life_of (worlds.node_at w place))) }
        ensures next { OnOk result ((w : worlds.World) → self.now ≡ held_world w
            → (worlds.life_of (worlds.node_at w place)).incarnation ≢ greatest_incarnation) }
        ensures fault { EndsBy result held_world self.now
            (λ w. MayEndCommand w (commands.restart place)) }
    {
        let life = self.nodes[place].life();
        let Some(incarnation) = life.incarnation().checked_add(1) else {
            return Err(ReplayFault::Read);
        };
        match life.node().try_clone(alloc) {
            Ok(name) => Ok(Life::new(name, incarnation)),
            Err(NoMemory) => Err(ReplayFault::NoMemory),
        }
    }

    fn begin(&mut self, alloc: Global, place: usize, life: &Life) -> Result<(), NoMemory>
        requires { place < node_count }
        ensures { Becomes result held_world self.old
            (λ w. worlds.after_restart w place life.now) self.new }
    {
        let lives = self.lives_with(alloc, place, life)?;
        let facts = copy_of(alloc, &self.facts)?;
        all_hear(&mut self.nodes, place, life);
        self.nodes[place].begin(alloc, facts, life, &lives)
    }

    fn restart(&mut self, alloc: Global, place: usize) -> Result<(), ReplayFault>
        requires { place < node_count }
        ensures world { Becomes result held_world self.old
            (λ w. (worlds.after_command w (commands.restart place)).world) self.new }
        ensures fault { EndsBy result held_world self.old
            (λ w. MayEndCommand w (commands.restart place)) }
    {
        let life = self.next_life(alloc, place)?;
        match self.begin(alloc, place, &life) {
            Ok(()) => Ok(()),
            Err(NoMemory) => Err(ReplayFault::NoMemory),
        }
    }

    fn serve_command<W: Write>(
        &mut self,
        alloc: Global,
        command: NodeCommand,
        writer: &mut W,
    ) -> Result<(), ReplayFault>
        requires { HasNodes command }
        ensures text { WritesTextOf W.contents writer.old writer.new result held_world self.old
            (λ w. (worlds.after_command w (value_of command)).text) }
        ensures world { Becomes result held_world self.old
            (λ w. (worlds.after_command w (value_of command)).world) self.new }
        ensures fault { EndsBy result held_world self.old
            (λ w. MayEndCommand w (value_of command)) }
    {
        match command {
            NodeCommand::Select(node) => {
                self.selected = node;
                Ok(())
            }
            NodeCommand::Exchange(sender, receiver) => self.exchange(
                alloc, sender, receiver, writer,
            ),
            NodeCommand::Lose(sender, receiver) => self.lose(alloc, sender, receiver),
            NodeCommand::HoldBack(sender, receiver) => self.hold_back(alloc, sender, receiver),
            NodeCommand::HandOver(sender, receiver) => self.hand_over(sender, receiver, writer),
            NodeCommand::Restart(node) => self.restart(alloc, node),
            NodeCommand::BadForm => put_bad_form(writer),
        }
    }

    /// Answers a line that was too long.
    pub(crate) fn serve_too_long<W: Write>(
        &mut self,
        alloc: Global,
        writer: &mut W,
    ) -> Result<(), ReplayFault>
        ensures text { WritesTextOf W.contents writer.old writer.new result held_world self.old
            (λ w. (spec.outcome w over_long).text) }
        ensures world { Becomes result held_world self.old
            (λ w. (spec.outcome w over_long).world) self.new }
        ensures fault { EndsBy result held_world self.old (λ w. MayEnd w over_long) }
    {
        self.nodes[self.selected].serve_too_long(alloc, &self.directory, writer)
    }

    /// Answers a line, which stands without its ending.
    pub(crate) fn serve_line<W: Write>(
        &mut self,
        alloc: Global,
        text: &[u8],
        writer: &mut W,
    ) -> Result<(), ReplayFault>
        ensures text { WritesTextOf W.contents writer.old writer.new result held_world self.old
            (λ w. (spec.outcome w (request_in text.now)).text) }
        ensures world { Becomes result held_world self.old
            (λ w. (spec.outcome w (request_in text.now)).world) self.new }
        ensures fault { EndsBy result held_world self.old (λ w. MayEnd w (request_in text.now)) }
    {
        if is_change_line(text) {
            self.serve_change(alloc, text, writer)
        } else if begins_with(b'%', text) {
            self.serve_command(alloc, command_of(&text[1..]), writer)
        } else {
            self.serve_client(alloc, text, writer)
        }
    }
}
