use super::{assert_both, assert_list, bytes_after, joined, must};
use std::alloc::Global;
use std::process::Abort;
use tb_program::run_output;

/// Returns a packet of accounts and one of no operation, both of `count` bytes of zeros.
fn two_packets_of(rt: &(impl Abort + Alloc<A = Global>), count: usize) -> String {
    let bytes = "00".repeat(rt.alloc(), count).expect(rt, "memory");
    let bytes = bytes.as_str();
    joined(
        rt,
        &[
            "packet 0 129\nhex ",
            bytes,
            "\npacket 0 200\nhex ",
            bytes,
            "\n",
        ],
    )
}

#[test]
fn refused_sizes_and_operations(rt: HostRuntime) {
    let script = two_packets_of(&rt, 127);
    assert_both(
        &rt,
        script.as_str(),
        "packet 0 refused 2 InvalidDataSize\npacket 0 refused 1 InvalidOperation\nclock 0\n",
    );
}

#[test]
fn hostile_bytes(rt: HostRuntime) {
    let script = bytes_after(&rt, "limit 4\npacket 0 129\n", "fF", 256);
    assert_both(
        &rt,
        script.as_str(),
        "packet 0 0 committed 0 0:3 1:2\nclock 2\n",
    );
}

#[test]
fn hostile_bytes_of_transfers(rt: HostRuntime) {
    let script = bytes_after(&rt, "packet 0 130\n", "ff", 256);
    assert_both(
        &rt,
        script.as_str(),
        "packet 0 0 committed 0 0:3 1:2\nclock 2\n",
    );
}

/// The packet of an account that has ledger and code 1, flags and user data, and the packet that begins after it.
const ONE_ACCOUNT: &str = "packet 0 129
account id=1 ledger=1 code=1 flags=2 user_data_128=3 user_data_64=4 user_data_32=5
packet 0 129
";

/// Accounts after `ONE_ACCOUNT`, each with the code in front that shows that its field was in its place.
const ACCOUNT_CODES: &str = "3 timestamp=1 reserved=1
4 reserved=1 flags=16
5 flags=16
6 ledger=1
7 id=340282366920938463463374607431768211455
15 id=1 flags=4 user_data_128=4
16 id=1 flags=2 user_data_128=4
17 id=1 flags=2 user_data_128=3
18 id=1 flags=2 user_data_128=3 user_data_64=4
19 id=1 flags=2 user_data_128=3 user_data_64=4 user_data_32=5
20 id=1 flags=2 user_data_128=3 user_data_64=4 user_data_32=5 ledger=1
21 id=1 flags=2 user_data_128=3 user_data_64=4 user_data_32=5 ledger=1 code=1 debits_posted=9
8 id=2 flags=6 debits_pending=1
9 id=2 debits_pending=1 debits_posted=1
10 id=2 debits_posted=1 credits_pending=1
11 id=2 credits_pending=1 credits_posted=1
12 id=2 credits_posted=1
13 id=2
14 id=2 ledger=1
";

const BEFORE_A_CODE: &str = "packet 0 0 committed 0\npacket 0 1 committed 1 0:";

const BEHIND_A_CODE: &str = "\nclock 2\naccount 1 1 0 0 0 0\n";

/// Asserts the code that an account after `ONE_ACCOUNT` is answered.
fn assert_answer(rt: &(impl Abort + Alloc<A = Global>), event: &str, code: &str) {
    let script = joined(rt, &[ONE_ACCOUNT, "account ", event, "\n"]);
    let output = joined(rt, &[BEFORE_A_CODE, code, BEHIND_A_CODE]);
    assert_list(rt, script.as_str(), output.as_str());
}

#[test]
fn account_codes(rt: HostRuntime) {
    for row in ACCOUNT_CODES.lines() {
        let (code, event) = row.split_once(' ').expect(&rt, "a code and fields");
        assert_answer(&rt, event, code);
    }
}

/// Nothing of this script is lost because memory ran out: neither the packets that are refused or behind the Close, nor the pulse that is refused.
#[test]
fn run_that_lacks_no_memory(rt: HostRuntime) {
    let script =
        "packet 0 131\npacket 0 200\npulse 9\npulse 4611686018427387905\nshut\npacket 0 131\n";
    let output = run_output(&rt, rt.alloc(), &mut script.as_bytes()).expect(&rt, "memory");
    must(&rt, output.faultless && !output.lacks_memory);
}
