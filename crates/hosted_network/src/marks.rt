//! The read markers that a network's clients were told.
ghost use Rattle.std.specs.Prelude.{◌≡◌, OnOk, OnErr};
ghost use Rattle.network_log.specs.NetworkState as spec;

use byte_text::NoMemory;
use chat_change::{Buffer, Moment};
use std::marker::Model;

/// A read marker that all clients were told: whose it is, and its moment.
#[derive(Drop)]
pub(crate) struct ToldMarker {
    buffer: Buffer,
    at: Moment,
}

impl Model for ToldMarker {
    ghost use Rattle.network_log.specs.NetworkState.{MarkerTold};

    ghost Value = { MarkerTold };

    ghost view = { λ m. record { buffer = m.buffer; at = m.at } };
}

/// Whether a marker is further than another, or there was none.
pub(crate) fn is_further(now: Option<Moment>, before: Option<Moment>) -> bool
    ensures { result ≡ spec.is_further now before }
{
    match (now, before) {
        (Some(now), Some(before)) => now.ms() > before.ms(),
        (Some(_), None) => true,
        (None, _) => false,
    }
}

/// The moment of the marker that clients were told last of a buffer.
pub(crate) fn last_told(markers: &[ToldMarker], buffer: &Buffer) -> Option<Moment>
    ensures { result ≡ spec.last_told markers.now buffer.now }
{
    for marker in markers {
        if marker.buffer.is_same(buffer) {
            return Some(marker.at);
        }
    }
    None
}

/// The marker of a buffer is told, in place of the one before. For want of memory nothing changes.
pub(crate) fn note(
    markers: &mut Vec<ToldMarker>,
    buffer: Buffer,
    at: Moment,
) -> Result<(), NoMemory>
    ensures noted { OnOk result (markers.new.items ≡ spec.with_told buffer at markers.old.items) }
    ensures err { OnErr result (markers.new.items ≡ markers.old.items) }
{
    for place in 0..markers.len() {
        if markers[place].buffer.is_same(&buffer) {
            markers[place].at = at;
            return Ok(());
        }
    }
    match markers.push(ToldMarker { buffer, at }) {
        Ok(()) => Ok(()),
        Err(_) => Err(NoMemory),
    }
}

/// The same of a marker that may be none.
pub(crate) fn note_if(
    markers: &mut Vec<ToldMarker>,
    buffer: Buffer,
    at: Option<Moment>,
) -> Result<(), NoMemory>
    ensures noted { OnOk result
        (markers.new.items ≡ spec.marker_noted buffer at markers.old.items) }
    ensures err { OnErr result (markers.new.items ≡ markers.old.items) }
{
    match at {
        Some(at) => note(markers, buffer, at),
        None => Ok(()),
    }
}
