//! What an application says of a submitter.

ghost use Rattle.std.specs.Prelude.{◌≡◌, ◌<◌, ℕ, List, [], ◌∷◌, ◌++◌, length, None, Ok, Err, ⊤};
ghost use Rattle.tb_work.specs.claim.Packet.{Numbered, ReplyValue};
ghost use Rattle.tb_work.specs.declared.packet.Packet as packets;
ghost use Rattle.tb_work.specs.declared.refusal.Refusal.{Refusal as RefusalValue};
ghost use Rattle.tb_drive.specs.clauses.Actions.{ClaimAfter};
ghost use Rattle.tb_drive.specs.clauses.Refusing.{IsFinalRefusal, final_refusal};

use std::alloc::Global;
use std::sync::Wait;
use tb_work::{Packet, Refusal, Reply};

/// What a submitter does next.
#[derive(Drop)]
pub enum Action {
    /// It queues a packet. While its credit is used up or the queue is full it reads replies and tries again.
    Submit(Packet),
    /// It waits for the next reply, and sleeps until there is one. If it has no packet whose reply is unread, its thread
    /// yields, and later sleeps for some 50 microseconds, and then the driver is asked again.
    Receive,
    /// It ends, and its driver isn't asked again.
    End,
}

/// Says what a submitter does, and receives the results. A thread of the submitter's own calls it, one call after
/// another. It needn't end anything itself.
///
/// `next` may wait: for a channel, for input, for another thread. Until it returns, replies to the submitter's packets
/// are put into its ring, and the driver doesn't receive them; nor can the run end or be given up. A driver that waits
/// for input and for replies asks for input without waiting while replies are to come, and returns `Receive` if there
/// is none.
///
/// Its implementor says what is known of a driver after a run, by three relations, which hold of anything unless they
/// are given. `has_seen` is between a driver, the most events of a packet, the packets queued by the results that it
/// received, and its replies, both in their order. `has_asked` is the same of a driver that has also asked for a packet
/// to be queued and has no result yet. `has_ended` is of one that returned `End`: a driver is asked until it does.
/// `share` is what a driver was made to queue, as its implementor defines it; no call changes it, so that a
/// caller knows its own drivers again.
pub trait Driver: Drop {
    ghost has_seen: { Self → ℕ → List Numbered → List ReplyValue → Type 0 } = { λ _ _ _ _. ⊤ };

    ghost has_asked: { Self → packets.Packet → ℕ → List Numbered → List ReplyValue → Type 0 } = { λ _ _ _ _ _. ⊤ };

    ghost has_ended: { Self → ℕ → List Numbered → List ReplyValue → Type 0 } = { λ _ _ _ _. ⊤ };

    ghost share: { Self → List packets.Packet } = { λ _. [] };

    /// Returns what the submitter does next. It may wait with `rt`.
    fn next<R: Wait>(&mut self, rt: &R, alloc: Global) -> Action
        ensures seen { (limit : ℕ) (queued : List Numbered) (read : List ReplyValue) → has_seen self.old limit queued read
            → ClaimAfter result (λ packet. has_asked self.new packet limit queued read)
            (has_seen self.new limit queued read) (has_ended self.new limit queued read) }
        ensures share { share self.new ≡ share self.old };

    /// Receives the result of the last packet: the number under which it is queued, which only an admitted packet is,
    /// or why it is refused. After `InFlight` and `Full` the packet is tried again, and there is no result yet; nor is
    /// there one if the run is given up meanwhile.
    fn submitted(&mut self, response: Result<u64, Refusal>)
        ensures queued { (job : Numbered) (limit : ℕ) (queued : List Numbered) (read : List ReplyValue)
            → has_asked self.old job.packet limit queued read → response ≡ Ok job.number
            → final_refusal limit read job.packet ≡ None → has_seen self.new limit (queued ++ job ∷ []) read }
        ensures refused { (packet : packets.Packet) (refusal : RefusalValue) (limit : ℕ) (queued : List Numbered)
            (read : List ReplyValue) → has_asked self.old packet limit queued read → response ≡ Err refusal
            → IsFinalRefusal limit read packet refusal → has_seen self.new limit queued read }
        ensures share { share self.new ≡ share self.old };

    /// Takes the next reply. There is one only while fewer replies were read than packets were queued: a relation may so
    /// have that replies are no more than packets.
    fn receive(&mut self, reply: Reply)
        ensures seen { (limit : ℕ) (queued : List Numbered) (read : List ReplyValue) → length read < length queued
            → has_seen self.old limit queued read → has_seen self.new limit queued (read ++ reply ∷ []) }
        ensures asked { (packet : packets.Packet) (limit : ℕ) (queued : List Numbered) (read : List ReplyValue)
            → length read < length queued → has_asked self.old packet limit queued read
            → has_asked self.new packet limit queued (read ++ reply ∷ []) }
        ensures ended { (limit : ℕ) (queued : List Numbered) (read : List ReplyValue) → length read < length queued
            → has_ended self.old limit queued read → has_ended self.new limit queued (read ++ reply ∷ []) }
        ensures share { share self.new ≡ share self.old };
}
