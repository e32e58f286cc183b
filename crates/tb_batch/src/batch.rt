//! One batch.

ghost use Rattle.std.specs.Prelude.{◌≡◌, ◌<◌, length, map};
ghost use Rattle.tb_work.specs.claim.Job.{stub_of};

use crate::parts::Parts;
use std::marker::Model;
use tb_work::{Job, Stub};

/// Packets of one operation that are committed together, seen as their jobs in order.
pub struct Batch {
    parts: Parts,
}

impl Drop for Batch {
    /// Frees everything held in one call, so that no owner's proof repeats it.
    fn drop(self) {
        let Batch { parts } = self;
        drop(parts);
    }
}

impl Model for Batch {
    ghost use Rattle.std.specs.Prelude.{List};
    ghost use Rattle.tb_work.specs.claim.Packet.{Numbered};
    ghost use Rattle.tb_batch.specs.claim.Batch.{AreParts};

    ghost Value = { List Numbered };

    ghost view = { λ batch. batch.parts.jobs.items };

    ghost invariant = { λ batch. AreParts batch.parts };
}

impl Batch {
    ghost use Rattle.tb_batch.specs.claim.Batch.{body_of, operation_of, AreAdmitted, AreParts};

    /// Returns the batch of these parts, as after a commit that was refused. Takes no memory.
    pub fn whole(parts: Parts) -> Batch
        requires { AreParts parts }
        ensures { result ≡ parts.jobs.items }
    {
        Batch { parts }
    }

    /// Returns the operation of its packets.
    pub fn operation(&self) -> u8
        ensures { result ≡ operation_of self.now }
    {
        self.parts.operation
    }

    /// Returns its packets' data, one after the other.
    pub fn body(&self) -> &[u8]
        ensures { result.now ≡ body_of self.now }
    {
        self.parts.body.as_slice()
    }

    /// Returns its jobs in order.
    pub fn jobs(&self) -> &[Job]
        ensures jobs { result.now ≡ self.now }
        ensures some { (0 < length self.now) × AreAdmitted self.now }
    {
        self.parts.jobs.as_slice()
    }

    /// Returns the stubs of its jobs.
    pub fn stubs(&self) -> &[Stub]
        ensures { result.now ≡ map stub_of self.now }
    {
        self.parts.stubs.as_slice()
    }

    /// Returns what it is made of, with an empty answer that has room for all of it.
    pub fn into_parts(self) -> Parts
        ensures jobs { result.jobs.items ≡ self }
        ensures parts { AreParts result }
    {
        let Batch { parts } = self;
        parts
    }
}
