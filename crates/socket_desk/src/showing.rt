//! The last showing: the device has failed, and replies that wait go out as far as they can.
ghost use Rattle.socket_desk.specs.Traffic.{AreShownLast, sockets_of};

use crate::moment::Moment;
use crate::sockets::Sockets;
use crate::stream::Stream;
use connections::Connections;

impl<T: Stream> Sockets<T> {
    /// The device has failed: replies that wait go out as far as the sockets take them at once. What the last round
    /// told may not have been looked at. So nothing goes to a socket that came or was written to in it: what is
    /// shown of its slot may have gone out already, or be the reply of the connection that was there before.
    pub(crate) fn show_last(&mut self, connections: &Connections, now: Option<Moment>)
        ensures { AreShownLast connections.now.slots.items
            (sockets_of T.left T.written self.old.sides.items)
            (sockets_of T.left T.written self.new.sides.items) }
    {
        for slot in 0..self.sides.len() {
            self.show_one(connections, slot, now);
            self.end_writing(slot);
        }
    }

    // That of one slot.
    fn show_one(&mut self, connections: &Connections, slot: usize, now: Option<Moment>)
        ensures { AreShownLast connections.now.slots.items
            (sockets_of T.left T.written self.old.sides.items)
            (sockets_of T.left T.written self.new.sides.items) }
    {
        let Some(mut side) = self.take_out(slot) else {
            return;
        };
        if !side.takes_more() {
            self.put_back(slot, side);
            return;
        }
        self.write_last(connections, slot, &mut side, now);
        self.put_back(slot, side);
    }

    // Nothing more is written to the socket in a slot.
    fn end_writing(&mut self, slot: usize)
        ensures { (shown : _) → AreShownLast shown
            (sockets_of T.left T.written self.old.sides.items)
            (sockets_of T.left T.written self.new.sides.items) }
    {
        if let Some(mut side) = self.take_out(slot) {
            side.stream.end();
            self.put_back(slot, side);
        }
    }
}
