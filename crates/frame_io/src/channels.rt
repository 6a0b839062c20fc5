// The open channels of a reader.
ghost use Rattle.std.specs.Prelude.{◌≡◌, ◌<◌, [], false, true, remove, IsTrue, MatchOption};
ghost use Rattle.frame_io.specs.Channels.{Extends, HasPlace};
ghost use Rattle.frame_io.specs.Frames.{bytes_of, is_open, without};

use crate::message::Message;
use rent_buf::ByteList;

// Where a channel stands among the open ones.
fn place_of(channels: &[Message], channel: u32) -> Option<usize>
    ensures { MatchOption result (is_open channel channels.now ≡ false) (HasPlace channel channels.now) }
{
    for (i, message) in channels.iter().enumerate() {
        if message.channel == channel {
            return Some(i);
        }
    }
    None
}

// Takes a channel out of the open ones: its bytes, or none where it isn't open, and whether it was open.
#[tactic(auto, using(crate::proofs::Places::none_of, crate::proofs::Places::none_without))]
pub(crate) fn opened(channels: &mut Vec<Message>, channel: u32) -> (ByteList, bool)
    ensures bytes { result.0 ≡ bytes_of channel channels.old.items }
    ensures known { result.1 ≡ is_open channel channels.old.items }
    ensures rest { channels.new.items ≡ without channel channels.old.items }
{
    match place_of(channels.as_slice(), channel) {
        Some(place) => {
            let Message { channel: _, bytes } = channels.remove(place);
            (bytes, true)
        }
        None => (ByteList::new(*channels.allocator()), false),
    }
}

// Adds bytes to the channel that was opened last, if it is this one and has then at most so many bytes. Answers whether it did so: else
// nothing has changed, for want of memory too.
pub(crate) fn extended(channels: &mut Vec<Message>, channel: u32, more: &[u8], most: usize) -> bool
    ensures done { IsTrue result → Extends channel more.now most channels.old.items channels.new.items }
    ensures same { result ≡ false → channels.new.items ≡ channels.old.items }
{
    let Some(place) = place_of(channels.as_slice(), channel) else {
        return false;
    };
    if place + 1 != channels.len() {
        return false;
    }
    let have = channels[place].bytes.len();
    if have > most || more.len() > most - have {
        return false;
    }
    channels[place].bytes.append(more).is_ok()
}
