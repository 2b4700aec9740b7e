//! The parts of a batch: which channel was entered, and the first ones.
ghost use Rattle.std.specs.Prelude.{◌≡◌, List, IfOk, length};
ghost use Rattle.std.specs.Option.{option_copied};
ghost use Rattle.chat_change.specs.declared.change.Change.{Change as Piece};
ghost use Rattle.network_log.specs.NetworkState.{first_entries};
ghost use Rattle.network_server.specs.Entries.{entries, posted_count};
ghost use Rattle.hosted_network.specs.Entering.{OnlyEntered};

use network_server::BatchPart;

/// Several channels were entered.
#[derive(Clone, Copy)]
pub(crate) struct SeveralEntered;

/// The channel that was entered, if one was.
pub(crate) fn entered_channel(parts: &[BatchPart]) -> Result<Option<&[u8]>, SeveralEntered>
    ensures { IfOk result (λ channel. OnlyEntered (option_copied channel) parts.now) }
{
    let mut found: Option<&[u8]> = None;
    for part in parts {
        if let BatchPart::Entered(channel) = part {
            if found.is_some() {
                return Err(SeveralEntered);
            }
            found = Some(channel.as_bytes());
        }
    }
    Ok(found)
}

/// The first parts, up to the one whose change would be one too many.
pub(crate) fn first_parts(parts: &[BatchPart], count: usize) -> &[BatchPart]
    ensures { (changes : List Piece) → posted_count parts.now ≡ length changes
        → entries result.now changes ≡ first_entries count (entries parts.now changes) }
{
    let mut left = count;
    for (at, part) in parts.iter().enumerate() {
        if let BatchPart::Posted(_) = part {
            if left == 0 {
                return &parts[..at];
            }
            left -= 1;
        }
    }
    parts
}
