use tb_work::{Moment, Stub};

/// An entry of the journal: the packets of a batch, or a pulse. A batch's body has its packets' data one
/// after the other, with events of 128 bytes, or of 16 bytes if it is a lookup.
#[derive(Drop)]
pub enum Entry {
    Batch {
        operation: u8,
        body: Vec<u8>,
        stubs: Vec<Stub>,
    },
    Pulse {
        moment: Moment,
    },
}
