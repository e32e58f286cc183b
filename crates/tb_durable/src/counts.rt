//! How many packets of each submitter are stored.

ghost use Rattle.std.specs.Prelude.{◌≡◌, Some, None, IfSome, IfNone};
ghost use Rattle.std.specs.Option.{is_some};

use tb_layout::SUBMITTERS_LENGTH;
use tb_work::Stub;

/// For each submitter how many of its packets are stored, and the number of its next packet if it goes on in the same run.
#[derive(Clone, Copy, Drop)]
pub(crate) struct PacketCounts {
    pub(crate) packets: [u64; SUBMITTERS_LENGTH],
    pub(crate) numbers: [u64; SUBMITTERS_LENGTH],
}

impl PacketCounts {
    ghost use Rattle.tb_durable.specs.clauses.Counts.{counted, counted_all, follows, no_packets};

    /// Returns the counts of an empty journal.
    pub(crate) fn new() -> PacketCounts
        ensures { result ≡ no_packets }
    {
        PacketCounts {
            packets: [0; SUBMITTERS_LENGTH],
            numbers: [0; SUBMITTERS_LENGTH],
        }
    }

    /// Counts a packet. None if it doesn't follow its submitter's last: it has neither the submitter's next number nor 0, with which
    /// the submitter's packets begin in each run. Then nothing is counted. There are 16 submitters.
    pub(crate) fn count(&mut self, stub: Stub) -> Option<()>
        ensures follows { is_some result ≡ follows self.old stub }
        ensures counted { IfSome result (λ _. self.new ≡ counted self.old stub) }
        ensures same { IfNone result (self.new ≡ self.old) }
    {
        let submitter = stub.submitter as usize;
        if submitter >= SUBMITTERS_LENGTH
            || (stub.number != 0 && stub.number != self.numbers[submitter])
        {
            return None;
        }
        let number = stub.number.checked_add(1)?;
        let packets = self.packets[submitter].checked_add(1)?;
        self.numbers[submitter] = number;
        self.packets[submitter] = packets;
        Some(())
    }

    /// Counts the packets of a batch, as `count` does.
    #[tactic(auto, unfolding(crate::specs::clauses::Counts::counted_all))]
    pub(crate) fn count_all(&mut self, stubs: &[Stub]) -> Option<()>
        ensures counted { IfSome result (λ _. counted_all self.old stubs.now ≡ Some self.new) }
        ensures refused { IfNone result (counted_all self.old stubs.now ≡ None) }
    {
        for stub in stubs {
            self.count(*stub)?;
        }
        Some(())
    }
}
