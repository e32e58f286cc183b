ghost use Rattle.std.specs.Prelude.{◌≡◌, ℕ, IsTrue, true, ⊤};

/// Watches the batches of a run and may hold their commits back. Batches are counted from 0 in the order in
/// which they are sealed, and pulses aren't counted. What a yes says of a batch is its implementor's to define, as
/// `lets_through`; unless that is given it says nothing.
pub trait Gate: Sync {
    ghost lets_through: { Self → ℕ → Type 0 } = { λ _ _. ⊤ };

    /// Notes that the batch was handed to the committer. The batcher calls it once for each batch.
    fn sealed(&self, batch: u64);

    /// Returns whether the batch may be committed now. The committer asks before each commit, again and again while the
    /// answer is no; a gate that never says yes holds the run up for ever.
    fn may_commit(&self, batch: u64) -> bool
        ensures { IsTrue result → lets_through self.now batch };
}

/// The gate that lets every batch through.
pub struct Open;

impl Gate for Open {
    fn sealed(&self, _batch: u64) {}

    fn may_commit(&self, _batch: u64) -> bool
        ensures through { IsTrue result → ⊤ }
        ensures yes { result ≡ true }
    {
        true
    }
}
