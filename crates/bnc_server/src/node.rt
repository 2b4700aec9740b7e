//! A node with its session: what it holds, and what it does for the session.
ghost use Rattle.std.specs.Prelude.{◌≡◌, ◌≢◌, ◌<◌, List, [], ◌∷◌, ◌++◌, length, map};
ghost use Rattle.std.specs.Prelude.{Ok, IfOk, IfErr, option_map};
ghost use Rattle.chat_history.specs.StateValue.{greatest_number, state_after};
ghost use Rattle.client_session.specs.declared.stage.Stage.TheVariants.{Registered};
ghost use Rattle.client_session.specs.Session.{too_long, facts_in};
ghost use Rattle.bnc_server.specs.Node as spec;
ghost use Rattle.bnc_server.specs.Links.{link_with, new_node, hearing, packet_for, after_making, ack_for, after_packet};
ghost use Rattle.bnc_server.specs.Links.{ack_answer, after_ack_of, late_ack, with_late};
ghost use Rattle.bnc_server.specs.Script.{none_late};
ghost use Rattle.bnc_server.specs.Schedule.{node_count};
ghost use Rattle.bnc_server.specs.HeldNode.{HeldNode, held_node, after_late, WritesTextOf, Becomes, EndsBy, of_state};
ghost use Rattle.bnc_server.specs.Faults.{MayLack, MayRefuse, MayCutShort, MayStop, MayStopIn, MayEndStep};

use crate::fault::ReplayFault;
use crate::reply::put_text;
use byte_text::NoMemory;
use chat_batch::{AnswerFault, Facts, answer};
use chat_change::Change;
use chat_state::{State, StateFault};
use client_session::{Directory, Effect, Session};
use gossip_link::{Ack, Life, Link, LinkFault, Packet, Version};
use irc_line::{Line, TagLimit, read_line};
use std::alloc::Global;
use std::io::Write;
use std::marker::Model;

/// A node with its session, and its link with the node at each place.
#[derive(Drop)]
pub(crate) struct Node {
    life: Life,
    session: Session,
    state: State,
    links: Vec<Link>,
    // the acknowledgement that is held back of the node at each place
    late: Vec<Option<Ack>>,
}

impl Model for Node {
    ghost use Rattle.std.specs.Coded.{codes};
    ghost use Rattle.chat_history.specs.Codes.{coded_state};
    ghost use Rattle.bnc_server.specs.Schedule.{node_count};
    ghost use Rattle.bnc_server.specs.HeldNode.{HeldNode};
    ghost use Rattle.std.specs.Prelude.{◌≡◌, length};

    ghost Value = { HeldNode };

    ghost coded = { Prim.hlevel (codes, coded_state) };

    ghost view = { λ n. record {
      life = n.life;
      session = n.session;
      state = n.state;
      links = n.links.items;
      late = n.late.items;
    } };

    ghost invariant = { λ n. (length n.links.items ≡ node_count)
        × (length n.late.items ≡ node_count) };
}

/// One item more.
pub(crate) fn push<T: Drop>(list: &mut Vec<T>, item: T) -> Result<(), NoMemory>
    ensures { IfOk result (λ _. list.new.items ≡ list.old.items ++ item ∷ []) }
{
    match list.push(item) {
        Ok(()) => Ok(()),
        Err(_) => Err(NoMemory),
    }
}

fn none_late(alloc: Global) -> Result<Vec<Option<Ack>>, NoMemory>
    ensures { IfOk result (λ late. late.items ≡ none_late) }
{
    match vec![in alloc; None, None, None, None, None, None, None, None, None] {
        Ok(late) => Ok(late),
        Err(_) => Err(NoMemory),
    }
}

fn link_with(alloc: Global, me: &Life, other: &Life) -> Result<Link, NoMemory>
    ensures { IfOk result (λ link. link ≡ link_with me.now other.now) }
{
    let mut link = Link::new(me.try_clone(alloc)?, other.node().try_clone(alloc)?);
    let _ = link.hello(other, Version::OWN);
    Ok(link)
}

fn links_with(alloc: Global, me: &Life, lives: &[Life]) -> Result<Vec<Link>, NoMemory>
    ensures { IfOk result (λ links. links.items ≡ map (link_with me.now) lives.now) }
{
    let mut links = Vec::new(alloc);
    for life in lives {
        let link = link_with(alloc, me, life)?;
        push(&mut links, link)?;
    }
    Ok(links)
}

// A copy of a life, and its links with nodes in these lives.
fn life_with_links(
    alloc: Global,
    life: &Life,
    lives: &[Life],
) -> Result<(Life, Vec<Link>), NoMemory>
    ensures life { IfOk result (λ made. made.0 ≡ life.now) }
    ensures links { IfOk result (λ made. made.1.items ≡ map (link_with life.now) lives.now) }
{
    let copy = life.try_clone(alloc)?;
    let links = links_with(alloc, life, lives)?;
    Ok((copy, links))
}

fn state_fault(fault: StateFault) -> ReplayFault
    ensures { result ≡ of_state fault }
{
    match fault {
        StateFault::Exhausted => ReplayFault::Read,
        StateFault::NoMemory => ReplayFault::NoMemory,
    }
}

fn answer_fault(fault: AnswerFault) -> ReplayFault
    ensures { result ≢ ReplayFault.Read }
{
    match fault {
        AnswerFault::NoMemory => ReplayFault::NoMemory,
        AnswerFault::Write => ReplayFault::Write,
    }
}

impl Node {
    /// A node in its first life, with a session that is registered. It has heard of these lives.
    pub(crate) fn new(
        alloc: Global,
        facts: Facts,
        life: &Life,
        lives: &[Life],
    ) -> Result<Node, NoMemory>
        requires { length lives.now ≡ node_count }
        ensures { IfOk result (λ node. node
            ≡ held_node (new_node (Registered facts) life.now lives.now none_late)) }
    {
        let late = none_late(alloc)?;
        let (life, links) = life_with_links(alloc, life, lives)?;
        Ok(Node {
            life,
            session: Session::registered(facts),
            state: State::new(alloc),
            links,
            late,
        })
    }

    /// Begins another life, with a session that is registered and nothing taken. It has heard of these lives. What is held
    /// back stays.
    pub(crate) fn begin(
        &mut self,
        alloc: Global,
        facts: Facts,
        life: &Life,
        lives: &[Life],
    ) -> Result<(), NoMemory>
        requires { length lives.now ≡ node_count }
        ensures { Becomes result held_node self.old
            (λ node. new_node (Registered facts) life.now lives.now node.late) self.new }
    {
        match life_with_links(alloc, life, lives) {
            Ok((life, links)) => {
                self.begin_with(alloc, facts, life, links);
                Ok(())
            }
            Err(NoMemory) => Err(NoMemory),
        }
    }

    // Begins that life with those links.
    fn begin_with(&mut self, alloc: Global, facts: Facts, life: Life, links: Vec<Link>)
        requires { length links.items ≡ node_count }
        ensures { self.new ≡ record {
          life = life;
          session = Registered facts;
          state = state_after 0 [];
          links = links.items;
          late = self.old.late;
        } }
    {
        self.life = life;
        self.session = Session::registered(facts);
        self.state = State::new(alloc);
        self.links = links;
    }

    /// The present life.
    pub(crate) fn life(&self) -> &Life
        ensures { result.now ≡ self.now.life }
    {
        &self.life
    }

    /// Makes a packet for the node at a place.
    pub(crate) fn make_for(
        &mut self,
        alloc: Global,
        place: usize,
    ) -> Result<Option<Packet>, ReplayFault>
        requires { place < node_count }
        ensures packet { IfOk result (λ packet. (node : spec.Node) → self.old ≡ held_node node
            → packet ≡ packet_for node place) }
        ensures node { Becomes result held_node self.old
            (λ node. after_making node place) self.new }
        ensures fault { IfErr result (λ fault. fault ≡ ReplayFault.NoMemory) }
    {
        let link = &mut self.links[place];
        match link.make(alloc, &mut self.state) {
            Ok(packet) => Ok(packet),
            Err(_) => Err(ReplayFault::NoMemory),
        }
    }

    // Why changes weren't all taken: no number is left, or there was no memory.
    fn cause(&self) -> ReplayFault
        ensures { MayLack self.now.state.front greatest_number result }
    {
        if self.state.front() == u64::MAX {
            ReplayFault::Read
        } else {
            ReplayFault::NoMemory
        }
    }

    /// Takes a packet of the node at a place, and acknowledges it. One for another life is passed over.
    pub(crate) fn take_from(
        &mut self,
        alloc: Global,
        place: usize,
        packet: &Packet,
    ) -> Result<Option<Ack>, ReplayFault>
        requires { place < node_count }
        ensures ack { IfOk result (λ ack. (node : spec.Node) → self.old ≡ held_node node
            → ack ≡ ack_for node place packet.now) }
        ensures node { Becomes result held_node self.old
            (λ node. after_packet node place packet.now) self.new }
        ensures fault { EndsBy result held_node self.old
            (λ node. MayCutShort node packet.now.changes) }
    {
        let link = &self.links[place];
        match link.take_packet(alloc, packet, &mut self.state) {
            Ok(ack) => Ok(Some(ack)),
            Err(LinkFault::WrongLife) => Ok(None),
            Err(_) => Err(self.cause()),
        }
    }

    /// Takes an acknowledgement of the node at a place.
    pub(crate) fn take_ack(&mut self, place: usize, ack: &Ack) -> Result<(), LinkFault>
        requires { place < node_count }
        ensures answer { (node : spec.Node) → self.old ≡ held_node node
            → result ≡ ack_answer node place ack.now }
        ensures node { (node : spec.Node) → self.old ≡ held_node node
            → self.new ≡ held_node (after_ack_of node place ack.now) }
    {
        self.links[place].take_ack(ack)
    }

    /// Holds an acknowledgement of the node at a place back.
    pub(crate) fn hold_back(&mut self, place: usize, ack: Ack)
        requires { place < node_count }
        ensures { (node : spec.Node) → self.old ≡ held_node node
            → self.new ≡ held_node (with_late node place ack) }
    {
        self.late[place] = Some(ack);
    }

    /// Takes the acknowledgement that is held back of the node at a place, if there is one. It stays held.
    pub(crate) fn take_late(&mut self, place: usize) -> Option<Result<(), LinkFault>>
        requires { place < node_count }
        ensures answer { (node : spec.Node) → self.old ≡ held_node node
            → result ≡ option_map (ack_answer node place) (late_ack node place) }
        ensures node { (node : spec.Node) → self.old ≡ held_node node
            → self.new ≡ held_node (after_late node place) }
    {
        match &self.late[place] {
            None => None,
            Some(ack) => Some(self.links[place].take_ack(ack)),
        }
    }

    /// Hears of a life of the node at a place.
    pub(crate) fn hear(&mut self, place: usize, life: &Life)
        requires { place < node_count }
        ensures { (node : spec.Node) → self.old ≡ held_node node
            → self.new ≡ held_node (hearing place life.now node) }
    {
        let _ = self.links[place].hello(life, Version::OWN);
    }

    /// Takes a change.
    pub(crate) fn take(&mut self, change: Change) -> Result<(), ReplayFault>
        ensures node { Becomes result held_node self.old
            (λ node. spec.after_taking node (change ∷ [])) self.new }
        ensures fault { EndsBy result held_node self.old (λ node. MayRefuse node change) }
    {
        match self.state.absorb(change) {
            Ok(_) => Ok(()),
            Err(fault) => Err(state_fault(fault)),
        }
    }

    // Answers a question about the past.
    fn answer_line<W: Write>(
        &mut self,
        alloc: Global,
        line: &Line<'_>,
        writer: &mut W,
    ) -> Result<(), ReplayFault>
        ensures text { WritesTextOf W.contents writer.old writer.new result held_node self.old
            (λ node. (spec.answer_to node (facts_in node.session) (Ok line.now)).text) }
        ensures node { Becomes result held_node self.old
            (λ node. (spec.answer_to node (facts_in node.session) (Ok line.now)).node) self.new }
        ensures fault { IfErr result (λ fault. fault ≢ ReplayFault.Read) }
    {
        let Some(facts) = self.session.facts() else {
            return Ok(());
        };
        match answer(alloc, &self.state, facts, line, writer) {
            Ok(answered) => {
                self.session.answered(answered);
                Ok(())
            }
            Err(fault) => Err(answer_fault(fault)),
        }
    }

    fn ask<W: Write>(
        &mut self,
        alloc: Global,
        question: &[u8],
        writer: &mut W,
    ) -> Result<(), ReplayFault>
        ensures text { WritesTextOf W.contents writer.old writer.new result held_node self.old
            (λ node. (spec.reply_to_effect node (Effect.Ask question.now)).text) }
        ensures node { Becomes result held_node self.old
            (λ node. (spec.reply_to_effect node (Effect.Ask question.now)).node) self.new }
        ensures fault { IfErr result (λ fault. fault ≢ ReplayFault.Read) }
    {
        match read_line(question, TagLimit::Client) {
            Ok(line) => self.answer_line(alloc, &line, writer),
            Err(_) => Ok(()),
        }
    }

    fn put(&mut self, change: &Change) -> Result<(), ReplayFault>
        ensures node { Becomes result held_node self.old
            (λ node. spec.after_taking node (change.now ∷ [])) self.new }
        ensures fault { EndsBy result held_node self.old (λ node. MayRefuse node change.now) }
    {
        match change.try_clone() {
            Ok(copy) => self.take(copy),
            Err(_) => Err(ReplayFault::NoMemory),
        }
    }

    // Does what an effect says.
    fn carry_out<W: Write>(
        &mut self,
        alloc: Global,
        effect: &Effect,
        writer: &mut W,
    ) -> Result<(), ReplayFault>
        ensures text { WritesTextOf W.contents writer.old writer.new result held_node self.old
            (λ node. (spec.reply_to_effect node effect.now).text) }
        ensures node { Becomes result held_node self.old
            (λ node. (spec.reply_to_effect node effect.now).node) self.new }
        ensures fault { EndsBy result held_node self.old (λ node. MayStop node effect.now) }
    {
        match effect {
            Effect::Send(text) => put_text(writer, text.as_bytes()),
            Effect::Put(change) => self.put(change),
            Effect::Ask(question) => self.ask(alloc, question.as_bytes(), writer),
            Effect::Upstream(_) => Ok(()),
            Effect::Close => Ok(()),
        }
    }

    // Does what effects say, in their order.
    fn carry_out_all<W: Write>(
        &mut self,
        alloc: Global,
        effects: &[Effect],
        writer: &mut W,
    ) -> Result<(), ReplayFault>
        ensures text { WritesTextOf W.contents writer.old writer.new result held_node self.old
            (λ node. (spec.reply_to_effects node effects.now).text) }
        ensures node { Becomes result held_node self.old
            (λ node. (spec.reply_to_effects node effects.now).node) self.new }
        ensures fault { EndsBy result held_node self.old (λ node. MayStopIn node effects.now) }
    {
        for effect in effects {
            self.carry_out(alloc, effect, writer)?;
        }
        Ok(())
    }

    // What the session does with a line.
    fn step(
        &mut self,
        alloc: Global,
        directory: &Directory,
        text: &[u8],
    ) -> Result<Vec<Effect>, ReplayFault>
        ensures step { IfOk result (λ list. (node : spec.Node) → self.old ≡ held_node node
            → (list.items ≡ (spec.step_of directory.now node text.now).effects)
            × (self.new ≡ held_node (spec.with_session node
            (spec.step_of directory.now node text.now).session))) }
        ensures fault { IfErr result (λ fault. fault ≡ ReplayFault.NoMemory) }
    {
        match self.session.step(alloc, text, directory, &mut self.state) {
            Ok(list) => Ok(list),
            // A state lets every reader in, so the fault is one of memory.
            Err(_) => Err(ReplayFault::NoMemory),
        }
    }

    /// Answers a line of the client, which stands without its ending.
    pub(crate) fn serve_line<W: Write>(
        &mut self,
        alloc: Global,
        directory: &Directory,
        text: &[u8],
        writer: &mut W,
    ) -> Result<(), ReplayFault>
        ensures text { WritesTextOf W.contents writer.old writer.new result held_node self.old
            (λ node. (spec.reply_to_line directory.now node text.now).text) }
        ensures node { Becomes result held_node self.old
            (λ node. (spec.reply_to_line directory.now node text.now).node) self.new }
        ensures fault { EndsBy result held_node self.old
            (λ node. MayEndStep node (spec.step_of directory.now node text.now)) }
    {
        let effects = self.step(alloc, directory, text)?;
        self.carry_out_all(alloc, &effects, writer)
    }

    // What the session does with a line that was too long.
    fn step_too_long(
        &mut self,
        alloc: Global,
        directory: &Directory,
    ) -> Result<Vec<Effect>, ReplayFault>
        ensures step { IfOk result (λ list. (node : spec.Node) → self.old ≡ held_node node
            → (list.items ≡ (too_long directory.now node.session).effects)
            × (self.new ≡ held_node (spec.with_session node
            (too_long directory.now node.session).session))) }
        ensures fault { IfErr result (λ fault. fault ≡ ReplayFault.NoMemory) }
    {
        match self.session.too_long(alloc, directory) {
            Ok(list) => Ok(list),
            Err(_) => Err(ReplayFault::NoMemory),
        }
    }

    /// Answers a line that was too long.
    pub(crate) fn serve_too_long<W: Write>(
        &mut self,
        alloc: Global,
        directory: &Directory,
        writer: &mut W,
    ) -> Result<(), ReplayFault>
        ensures text { WritesTextOf W.contents writer.old writer.new result held_node self.old
            (λ node. (spec.reply_to_long_line directory.now node).text) }
        ensures node { Becomes result held_node self.old
            (λ node. (spec.reply_to_long_line directory.now node).node) self.new }
        ensures fault { EndsBy result held_node self.old
            (λ node. MayEndStep node (too_long directory.now node.session)) }
    {
        let effects = self.step_too_long(alloc, directory)?;
        self.carry_out_all(alloc, &effects, writer)
    }
}

/// The present lives of nodes.
pub(crate) fn lives_of(alloc: Global, nodes: &[Node]) -> Result<Vec<Life>, NoMemory>
    ensures { IfOk result (λ lives. lives.items ≡ map (λ (node : HeldNode). node.life) nodes.now) }
{
    let mut lives = Vec::new(alloc);
    for node in nodes {
        let life = node.life().try_clone(alloc)?;
        push(&mut lives, life)?;
    }
    Ok(lives)
}

/// All nodes hear of a life of the node at a place.
pub(crate) fn all_hear(nodes: &mut [Node], place: usize, life: &Life)
    requires { place < node_count }
    ensures { (list : List spec.Node) → nodes.old ≡ map held_node list
        → nodes.new ≡ map held_node (map (hearing place life.now) list) }
{
    for node in nodes.iter_mut() {
        node.hear(place, life);
    }
}
