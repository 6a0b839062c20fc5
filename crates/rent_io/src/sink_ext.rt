// The send of an item and its flush, as a call of the sink.
ghost use Rattle.std.specs.Prelude.{◌≡◌, Some};
ghost use Rattle.rent_io.specs.State.{plain};

use crate::sink::{SendAndFlush, Sink};

/// Sends of items (monoio: `SinkExt`).
pub trait SinkExt<I>: Sink<I> {
    /// A send of this item, and then a flush, as a state to be polled with the sink (monoio: `send_and_flush`).
    fn send_and_flush(&self, item: I) -> SendAndFlush<I>
        ensures { result ≡ plain (Some item) }
    {
        SendAndFlush::new(item)
    }
}

impl<I, S: Sink<I>> SinkExt<I> for S {}
