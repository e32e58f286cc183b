//! Waiting for a slot of a ring.

ghost use Rattle.std.specs.Prelude.{◌≡◌, [], ◌∷◌, ◌++◌};
ghost use Rattle.tb_rings.specs.clauses.Ends.{given, SameOutlet};

use std::sync::Wait;
use std::time::Clock;
use tb_rings::{IdleWait, Outlet};

/// Gives a value as soon as there is a free slot.
#[inline(always)]
pub(crate) fn give_waiting<T: Drop, R: Wait + Clock>(rt: &R, outlet: &mut Outlet<T>, value: T)
    ensures ring { SameOutlet outlet.old outlet.new }
    ensures given { given outlet.new ≡ given outlet.old ++ value ∷ [] }
{
    if let Err(back) = outlet.give(value) {
        give_later(rt, outlet, back);
    }
}

/// Gives a value for which no free slot was seen. While there is none it yields, and then sleeps until the taker takes.
///
/// It is a call of its own because a loop copies the value that it keeps, and a ring is rarely full.
#[inline(never)]
fn give_later<T: Drop, R: Wait + Clock>(rt: &R, outlet: &mut Outlet<T>, value: T)
    ensures ring { SameOutlet outlet.old outlet.new }
    ensures given { given outlet.new ≡ given outlet.old ++ value ∷ [] }
{
    let mut value = value;
    let idle = IdleWait::new();
    for _ in rt.forever() {
        outlet.wait(rt, &idle);
        match outlet.give(value) {
            Ok(()) => return,
            Err(back) => value = back,
        }
    }
    unreachable!()
}
