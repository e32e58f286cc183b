/// The first fault of a chain: its index there, the event, and the number of its result.
#[derive(Clone, Copy)]
pub(crate) struct ChainFault<E> {
    pub(crate) index: usize,
    pub(crate) event: E,
    pub(crate) code: u32,
}
