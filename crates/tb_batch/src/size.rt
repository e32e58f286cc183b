//! How large a group is.

ghost use Rattle.std.specs.Prelude.{◌≡◌, length, max};
ghost use Rattle.tb_work.specs.claim.Admission.{count_of};

use tb_work::Job;

/// Numbers of packets, events and bytes of data.
#[derive(Clone, Copy)]
pub(crate) struct Size {
    pub(crate) packets: usize,
    pub(crate) events: u32,
    pub(crate) bytes: usize,
}

impl Size {
    /// Returns the size of nothing.
    pub(crate) fn none() -> Size
        ensures { result ≡ record { packets = 0; events = 0; bytes = 0 } }
    {
        Size {
            packets: 0,
            events: 0,
            bytes: 0,
        }
    }

    /// Returns the size of a group of one packet.
    pub(crate) fn of(job: &Job) -> Size
        ensures { result ≡ record {
          packets = 1;
          events = count_of job.now.packet;
          bytes = length job.now.packet.bytes;
        } }
    {
        Size {
            packets: 1,
            events: job.stub().count,
            bytes: job.packet().bytes.as_slice().len(),
        }
    }

    /// Returns the greater number of each.
    pub(crate) fn max(self, other: Size) -> Size
        ensures { result ≡ record {
          packets = max self.packets other.packets;
          events = max self.events other.events;
          bytes = max self.bytes other.bytes;
        } }
    {
        Size {
            packets: self.packets.max(other.packets),
            events: self.events.max(other.events),
            bytes: self.bytes.max(other.bytes),
        }
    }
}
