//! What a World knows of a sender.

ghost use Rattle.std.specs.Prelude.{◌≡◌, ℕ, true};
ghost use Rattle.tb_world.specs.clauses.Pushing.{may_push, sender_after};

use tb_work::Item;

/// How many packets a sender has pushed, which may be one more than the greatest number of a packet, and whether
/// it ended.
#[derive(Clone, Copy, Default)]
pub(crate) struct WorldSender {
    pub(crate) pushed: u128,
    pub(crate) ended: bool,
}

impl WorldSender {
    /// Returns whether sender `number` may push an item; the control is the sender after the submitters.
    pub(crate) fn may_push(self, limit: u32, submitters: u32, number: u32, item: &Item) -> bool
        ensures { result ≡ may_push limit submitters number self item.now }
    {
        if self.ended {
            return false;
        }
        match item {
            Item::Packet(job) => {
                let stub = job.stub();
                number < submitters
                    && stub.submitter == number
                    && u128::from(stub.number) == self.pushed
                    && stub.count <= limit
            }
            Item::Pulse(_) | Item::Close => number == submitters,
            Item::End => number <= submitters,
        }
    }

    /// Returns the sender after an item that it may push.
    pub(crate) fn after(self, item: &Item) -> WorldSender
        requires { (limit : ℕ) × (submitters : ℕ) × (number : ℕ)
            × (may_push limit submitters number self item.now ≡ true) }
        ensures { result ≡ sender_after self item.now }
    {
        match item {
            Item::Packet(job) => WorldSender {
                pushed: u128::from(job.stub().number) + 1,
                ended: self.ended,
            },
            Item::Pulse(_) => self,
            Item::End | Item::Close => WorldSender {
                pushed: self.pushed,
                ended: true,
            },
        }
    }
}
