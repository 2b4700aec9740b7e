//! Read markers that rose are told (IRCv3 draft/read-marker).
ghost use Rattle.std.specs.Prelude.{◌≡◌, IfSome};
ghost use Rattle.chat_change.specs.Buffer.{buffer_of};
ghost use Rattle.network_log.specs.Putting.{IsSeen};
ghost use Rattle.network_log.specs.Truth.{IsReached, Leads};
ghost use Rattle.hosted_network.specs.Informing.{HasRisen};

use crate::marks::{is_further, last_told, note};
use crate::parts::NetworkParts;
use crate::told::Told;
use byte_text::Text;
use chat_change::{Buffer, Moment, has_buffer, lawful_buffer};
use network_server::BatchPart;
use node_ports::{Connection, NetworkView, NodePass};

impl<'a, C: Connection, V: NetworkView> NetworkParts<'a, C, V> {
    /// Each client that follows markers is told that of the target, where the node's is further than the one that all clients were told
    /// last. For want of memory it isn't told.
    pub(crate) fn inform<N: NodePass<Connection = C, View = V>>(
        &mut self,
        pass: &mut N,
        target: &[u8],
    )
        requires { ∥ IsReached C.facts self.old ∥₁ }
        ensures { ∥ Leads C.facts self.old self.new ∥₁ }
    {
        let account = self.config.account.as_bytes();
        let network = self.config.network.as_bytes();
        if !has_buffer(account, network, target) {
            return;
        }
        let Ok(buffer) = lawful_buffer(self.alloc, account, network, target) else {
            return;
        };
        let Some(at) = self.risen_marker(pass, &buffer) else {
            return;
        };
        let Ok(target) = Text::new(self.alloc, target) else {
            return;
        };
        self.tell_marker(buffer, target, at);
    }

    // The marker of a buffer as the node has it now, where it is further than the one that all clients were told last.
    fn risen_marker<N: NodePass<Connection = C, View = V>>(
        &mut self,
        pass: &mut N,
        buffer: &Buffer,
    ) -> Option<Moment>
        ensures risen { IfSome result (λ at. HasRisen self.new buffer.now at) }
        ensures seen { ∥ IsSeen C.facts self.old.held self.new.held ∥₁ }
        ensures rest { self.new ≡ record self.old { held = self.new.held } }
    {
        let Ok(Some(at)) = pass.marker(&mut self.view, buffer) else {
            return None;
        };
        if !is_further(Some(at), last_told(&self.markers, buffer)) {
            return None;
        }
        Some(at)
    }

    // Each client is told that marker of the target, and it is noted. For want of memory nothing changes.
    fn tell_marker(&mut self, buffer: Buffer, target: Text, at: Moment)
        requires risen { HasRisen self.old buffer at }
        requires buffer { buffer
            ≡ buffer_of self.old.config.account self.old.config.network target }
        requires reached { ∥ IsReached C.facts self.old ∥₁ }
        ensures { ∥ Leads C.facts self.old self.new ∥₁ }
    {
        let Ok(()) = note(&mut self.markers, buffer, at) else {
            return;
        };
        let told = Told {
            parts: &[BatchPart::Entered(target)],
            changes: &[],
            mark: Some(at),
        };
        self.tell_all(&told, true);
    }
}
