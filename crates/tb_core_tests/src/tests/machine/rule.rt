//! The rule that made events follow: which ids and amounts there are, and which numbers a counter leads to.

/// What the ids and the amounts of a run are made of.
#[derive(Clone, Copy)]
pub(super) struct Rule {
    /// How many ids the transfers have.
    pub(super) ids: u32,
    /// The number before the first id.
    above: u128,
    /// What each amount is a multiple of.
    unit: u128,
}

/// Returns the rule of ids and amounts from 1 on.
pub(super) fn small(ids: u32) -> Rule {
    Rule {
        ids,
        above: 0,
        unit: 1,
    }
}

/// Returns the rule of ids up to `last`, and of amounts whose sums are near 2^128.
pub(super) fn large(ids: u32, last: u128) -> Rule {
    Rule {
        ids,
        above: last.saturating_sub(u128::from(ids)),
        unit: 1 << 112,
    }
}

impl Rule {
    /// Returns the id of a number, counted from 1.
    pub(super) fn id(self, number: u64) -> u128 {
        self.above.saturating_add(u128::from(number))
    }

    /// Returns the id that a counter leads to.
    pub(super) fn id_at(self, counter: u64) -> u128 {
        let number = counter.checked_rem(u64::from(self.ids)).unwrap_or(0);
        self.id(number.saturating_add(1))
    }

    pub(super) fn amount(self, number: u64) -> u128 {
        self.unit.saturating_mul(u128::from(number))
    }
}

/// Returns one of `many` numbers, counted from 0, that a counter and a purpose lead to.
pub(super) fn pick(counter: u64, purpose: u64, many: u64) -> u64 {
    let number = counter.wrapping_add(purpose.wrapping_mul(7));
    (number.wrapping_mul(number) % 1009)
        .checked_rem(many)
        .unwrap_or(0)
}
