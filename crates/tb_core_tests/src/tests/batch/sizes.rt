//! Batches of the largest sizes. The clauses let `offer` refuse each packet because memory ran out.

use super::calls::parts_of_a_lookup;
use super::examples::assert_examples;
use crate::tests::must;

const MANY: &str = "seventeen_packets 8190 129:x1*17=joined = 17/2176:16+1
as_many_packets_as_events 8190 130:x1*8190=joined = 8190/1048320:8189+1
";

#[test]
fn many_packets_joined(rt: HostRuntime) {
    assert_examples(&rt, MANY);
}

const UP_TO_THE_LIMIT: &str =
    "full 8190 130:x8000=joined 130:x100=joined 130:=joined 130:x90=joined 130:=joined = 5/1048320:4+0
over 8190 129:x8000=joined 129:x190=joined 129:x1=2/1048320 129:x8189=joined = 2/1048320:3+8189
many 8190 129:x8000=joined 129:x191=1/1024000 129:x8000=1/24448 = 1/1024000:2+8000
";

#[test]
fn joined_up_to_the_limit(rt: HostRuntime) {
    assert_examples(&rt, UP_TO_THE_LIMIT);
}

const HELD_AGAIN: &str =
    "many 8190 130:x1*8190=joined hold=8190/1048320:8189+1 130:x1=8190/1048320 = 1/128
almost 8190 129:x8000=joined 129:x189=joined hold=2/1048192:1+189 129:x1=joined = 3/1048320
almost 8190 129:x8000=joined 129:x189=joined hold=2/1048192:1+189 129:x2=2/1048192 = 1/256
ids 8190 131:x8190=joined hold=1/131040:0+8190 131:=1/131040 = 1/0
one 8190 131:x1=joined hold=1/16:0+1 131:x1=1/16 = 1/16
";

/// A packet joins a batch that is held again exactly if it would have joined it before.
#[test]
fn batches_held_again(rt: HostRuntime) {
    assert_examples(&rt, HELD_AGAIN);
}

const LOOKUPS: [usize; 5] = [0, 1, 2, 3, 8190];

/// A lookup has capacity for an account for each id.
#[test]
fn lookups_of_each_size(rt: HostRuntime) {
    for count in &LOOKUPS {
        let parts = parts_of_a_lookup(&rt, *count);
        must(
            &rt,
            parts.operation == 131 && parts.body.len() == 16 * *count,
        );
        must(&rt, parts.accounts.capacity() >= *count);
        drop(parts);
    }
}
