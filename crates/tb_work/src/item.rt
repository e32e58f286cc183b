use crate::job::Job;
use crate::moment::Moment;

/// What a sender queues. End is a sender's last item, Close the control's, which also ends what is
/// committed.
#[derive(Drop)]
pub enum Item {
    Packet(Job),
    Pulse(Moment),
    End,
    Close,
}

/// An item with its sender's number.
#[derive(Drop)]
pub struct Ticket {
    pub sender: u32,
    pub item: Item,
}
