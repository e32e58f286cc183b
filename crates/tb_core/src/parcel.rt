use tb_batch::Batch;
use tb_work::{Job, Moment};

/// Why a packet comes back uncommitted.
#[derive(Clone, Copy, Debug, PartialEq, Eq)]
pub enum Cause {
    Shutdown,
    Stopped,
}

/// What the front yields. Last, which is the default, is the end of it.
#[derive(Drop)]
pub enum Parcel {
    Batch(Batch),
    Pulse(Moment),
    Return(Job, Cause),
    Last,
}

impl Default for Parcel {
    ghost use Rattle.std.specs.Prelude.{◌≡◌};
    ghost use Rattle.tb_core.specs.declared.parcel.Parcel.TheVariants.{Last};

    fn default() -> Parcel
        ensures { result ≡ Last }
    {
        Parcel::Last
    }
}
