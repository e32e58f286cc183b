//! Each code of the table of transfers, by itself and together with the one after it in the table.

use super::{add, joined, listed};
use std::alloc::Global;
use std::process::Abort;
use tb_test_makers::check;

/// Returns a script in which each row is a packet of its own after a setup.
fn script_of(rt: &(impl Abort + Alloc<A = Global>), setup: &str, rows: &str) -> String {
    let mut script = joined(rt, &[setup]);
    for row in rows.lines() {
        let (_, fields) = row.split_once(' ').expect(rt, "a code and fields");
        add(rt, &mut script, &["packet 0 130\ntransfer ", fields, "\n"]);
    }
    script
}

/// Returns the lines in which each row gets its code, after a setup of this number of packets and pulses.
fn answers_of(
    rt: &(impl Abort + Alloc<A = Global>),
    packets: usize,
    pulses: usize,
    rows: &str,
) -> String {
    let mut answers = String::new(rt.alloc());
    for (k, row) in rows.lines().enumerate() {
        let (code, _) = row.split_once(' ').expect(rt, "a code and fields");
        let number = packets.saturating_add(k);
        let place = number.saturating_add(pulses);
        write!(answers, "packet 0 {number} committed {place} 0:{code}\n").expect(rt, "memory");
    }
    answers
}

/// Asserts that each row gets its code after a setup of this number of packets and pulses.
fn assert_codes(
    rt: &(impl Abort + Alloc<A = Global>),
    setup: &str,
    packets: usize,
    pulses: usize,
    rows: &str,
) {
    let script = script_of(rt, setup, rows);
    let output = listed(rt, script.as_str());
    let answers = answers_of(rt, packets, pulses, rows);
    check!(rt; output.as_str().contains(answers.as_str()), answers.as_str());
}

/// Accounts 1, 2, 6, 7, 8 and 9 of ledger 1, 3 of ledger 2. The debits of account 4 must not exceed
/// its credits, and the credits of account 5 not its debits. Plain transfer 1. Pending transfers: 2 is
/// open, 3 is posted by 4, 5 is voided by 6. Of those with a timeout, 7 is posted by 8, 9 is voided by
/// 10, and 11 expires at the pulse. Transfer 12 debits account 6; account 8 has a pending debit, and
/// account 7 a pending credit. Transfer 50 failed, as account 99 isn't there.
const LEDGER: &str = "packet 0 129
account id=1 ledger=1 code=1
account id=2 ledger=1 code=1
account id=3 ledger=2 code=1
account id=4 ledger=1 code=1 flags=2
account id=5 ledger=1 code=1 flags=4
account id=6 ledger=1 code=1
account id=7 ledger=1 code=1
account id=8 ledger=1 code=1
account id=9 ledger=1 code=1
packet 0 130
transfer id=1 debit_account_id=1 credit_account_id=2 amount=10 user_data_128=5 user_data_64=6 user_data_32=7 ledger=1 code=1
transfer id=2 debit_account_id=1 credit_account_id=2 amount=100 ledger=1 code=1 flags=2
transfer id=3 debit_account_id=1 credit_account_id=2 amount=100 ledger=1 code=1 flags=2
transfer id=4 amount=100 pending_id=3 flags=4
transfer id=5 debit_account_id=1 credit_account_id=2 amount=100 ledger=1 code=1 flags=2
transfer id=6 pending_id=5 flags=8
transfer id=7 debit_account_id=1 credit_account_id=2 amount=100 timeout=1 ledger=1 code=1 flags=2
transfer id=8 amount=100 pending_id=7 flags=4
transfer id=9 debit_account_id=1 credit_account_id=2 amount=100 timeout=1 ledger=1 code=1 flags=2
transfer id=10 pending_id=9 flags=8
transfer id=11 debit_account_id=1 credit_account_id=2 amount=100 timeout=1 ledger=1 code=1 flags=2
transfer id=12 debit_account_id=6 credit_account_id=2 amount=1 ledger=1 code=1
transfer id=13 debit_account_id=8 credit_account_id=7 amount=1 ledger=1 code=1 flags=2
pulse 5000000000
packet 0 130
transfer id=50 debit_account_id=1 credit_account_id=99 amount=1 ledger=1 code=1
";

/// Transfers that follow `LEDGER`, one after another: the code that each is answered, and its fields.
const CODES: &str = "3 id=60 timestamp=1
3 id=60 timestamp=1 flags=16
4 id=60 flags=16
4 flags=16
5 amount=1
6 id=340282366920938463463374607431768211455
36 id=1 debit_account_id=1 credit_account_id=2 amount=10 user_data_128=5 user_data_64=6 user_data_32=7 ledger=1 code=1 flags=2
36 id=1 debit_account_id=1 credit_account_id=2 amount=10 user_data_128=5 user_data_64=6 user_data_32=7 ledger=1 code=1 flags=2 pending_id=9
40 id=1 debit_account_id=1 credit_account_id=2 amount=10 user_data_128=5 user_data_64=6 user_data_32=7 ledger=1 code=1 pending_id=9
40 id=1 debit_account_id=9 credit_account_id=2 amount=10 user_data_128=5 user_data_64=6 user_data_32=7 ledger=1 code=1 pending_id=9
37 id=1 debit_account_id=9 credit_account_id=2 amount=10 user_data_128=5 user_data_64=6 user_data_32=7 ledger=1 code=1
37 id=1 debit_account_id=9 credit_account_id=9 amount=10 user_data_128=5 user_data_64=6 user_data_32=7 ledger=1 code=1
38 id=1 debit_account_id=1 credit_account_id=9 amount=10 user_data_128=5 user_data_64=6 user_data_32=7 ledger=1 code=1
38 id=1 debit_account_id=1 credit_account_id=9 amount=9 user_data_128=5 user_data_64=6 user_data_32=7 ledger=1 code=1
39 id=1 debit_account_id=1 credit_account_id=2 amount=9 user_data_128=5 user_data_64=6 user_data_32=7 ledger=1 code=1
39 id=1 debit_account_id=1 credit_account_id=2 amount=9 user_data_128=4 user_data_64=6 user_data_32=7 ledger=1 code=1
41 id=1 debit_account_id=1 credit_account_id=2 amount=10 user_data_128=4 user_data_64=6 user_data_32=7 ledger=1 code=1
41 id=1 debit_account_id=1 credit_account_id=2 amount=10 user_data_128=4 user_data_64=4 user_data_32=7 ledger=1 code=1
42 id=1 debit_account_id=1 credit_account_id=2 amount=10 user_data_128=5 user_data_64=4 user_data_32=7 ledger=1 code=1
42 id=1 debit_account_id=1 credit_account_id=2 amount=10 user_data_128=5 user_data_64=4 user_data_32=4 ledger=1 code=1
43 id=1 debit_account_id=1 credit_account_id=2 amount=10 user_data_128=5 user_data_64=6 user_data_32=4 ledger=1 code=1
43 id=1 debit_account_id=1 credit_account_id=2 amount=10 user_data_128=5 user_data_64=6 user_data_32=4 timeout=1 ledger=1 code=1
44 id=1 debit_account_id=1 credit_account_id=2 amount=10 user_data_128=5 user_data_64=6 user_data_32=7 timeout=1 ledger=1 code=1
44 id=1 debit_account_id=1 credit_account_id=2 amount=10 user_data_128=5 user_data_64=6 user_data_32=7 timeout=1 ledger=2 code=1
67 id=1 debit_account_id=1 credit_account_id=2 amount=10 user_data_128=5 user_data_64=6 user_data_32=7 ledger=2 code=1
67 id=1 debit_account_id=1 credit_account_id=2 amount=10 user_data_128=5 user_data_64=6 user_data_32=7 ledger=2 code=2
45 id=1 debit_account_id=1 credit_account_id=2 amount=10 user_data_128=5 user_data_64=6 user_data_32=7 ledger=1 code=2
46 id=1 debit_account_id=1 credit_account_id=2 amount=10 user_data_128=5 user_data_64=6 user_data_32=7 ledger=1 code=1
46 id=4 amount=100 pending_id=3 flags=4
44 id=4 amount=100 pending_id=3 timeout=1 flags=4
46 id=6 pending_id=5 flags=8
39 id=6 amount=340282366920938463463374607431768211455 pending_id=5 flags=8
68 id=50 debit_account_id=1 credit_account_id=2 amount=1 ledger=1 code=1
68 id=50 flags=6
7 id=60 flags=6
7 id=60 flags=10 pending_id=2
7 id=60 flags=12
14 id=60 flags=4
14 id=60 flags=8 timeout=1
15 id=60 flags=4 pending_id=340282366920938463463374607431768211455
15 id=60 flags=4 pending_id=340282366920938463463374607431768211455 timeout=1
16 id=60 flags=4 pending_id=60
16 id=60 flags=8 pending_id=60 timeout=1
17 id=60 flags=4 pending_id=2 timeout=1
17 id=60 flags=4 pending_id=99 timeout=1
25 id=61 flags=4 pending_id=99
68 id=61 flags=4 pending_id=2
26 id=60 flags=4 pending_id=1
26 id=60 flags=4 pending_id=1 debit_account_id=9
27 id=60 flags=4 pending_id=2 debit_account_id=9
27 id=60 flags=4 pending_id=2 debit_account_id=9 credit_account_id=9
28 id=60 flags=4 pending_id=2 credit_account_id=9
28 id=60 flags=4 pending_id=2 credit_account_id=9 ledger=9
29 id=60 flags=4 pending_id=2 ledger=9
29 id=60 flags=4 pending_id=2 ledger=9 code=9
30 id=60 flags=4 pending_id=2 code=9
30 id=60 flags=4 pending_id=2 code=9 amount=101
31 id=60 flags=4 pending_id=2 amount=101
31 id=60 flags=8 pending_id=2 amount=340282366920938463463374607431768211455
31 id=60 flags=4 pending_id=3 amount=101
32 id=60 flags=8 pending_id=2 amount=99
32 id=60 flags=8 pending_id=3 amount=99
33 id=60 flags=8 pending_id=3
33 id=60 flags=4 pending_id=7 amount=340282366920938463463374607431768211455
34 id=60 flags=4 pending_id=5 amount=340282366920938463463374607431768211455
34 id=60 flags=8 pending_id=9
35 id=60 flags=8 pending_id=11
8 id=60 credit_account_id=2 ledger=1 code=1
8 id=60 ledger=1 code=1
9 id=60 debit_account_id=340282366920938463463374607431768211455 credit_account_id=2 ledger=1 code=1
9 id=60 debit_account_id=340282366920938463463374607431768211455 ledger=1 code=1
10 id=60 debit_account_id=1 ledger=1 code=1
11 id=60 debit_account_id=1 credit_account_id=340282366920938463463374607431768211455 ledger=1 code=1
11 id=60 debit_account_id=1 credit_account_id=340282366920938463463374607431768211455 pending_id=9 ledger=1 code=1
12 id=60 debit_account_id=1 credit_account_id=1 ledger=1 code=1
12 id=60 debit_account_id=1 credit_account_id=1 pending_id=9 ledger=1 code=1
13 id=60 debit_account_id=1 credit_account_id=2 pending_id=9 ledger=1 code=1
13 id=60 debit_account_id=1 credit_account_id=2 pending_id=9 timeout=1 ledger=1 code=1
17 id=60 debit_account_id=1 credit_account_id=2 timeout=1 ledger=1 code=1
17 id=60 debit_account_id=1 credit_account_id=2 timeout=1 code=1
19 id=60 debit_account_id=1 credit_account_id=2 code=1
19 id=60 debit_account_id=1 credit_account_id=2
20 id=60 debit_account_id=1 credit_account_id=2 ledger=1
20 id=60 debit_account_id=99 credit_account_id=2 ledger=1
21 id=62 debit_account_id=99 credit_account_id=2 ledger=1 code=1
68 id=62 debit_account_id=1 credit_account_id=2 ledger=1 code=1
21 id=63 debit_account_id=98 credit_account_id=99 ledger=1 code=1
22 id=64 debit_account_id=1 credit_account_id=99 ledger=1 code=1
23 id=60 debit_account_id=1 credit_account_id=3 ledger=1 code=1
23 id=60 debit_account_id=1 credit_account_id=3 ledger=7 code=1
24 id=60 debit_account_id=1 credit_account_id=2 ledger=7 code=1
24 id=60 debit_account_id=1 credit_account_id=2 amount=340282366920938463463374607431768211455 ledger=7 code=1 flags=2
47 id=60 debit_account_id=1 credit_account_id=9 amount=340282366920938463463374607431768211455 ledger=1 code=1 flags=2
47 id=60 debit_account_id=1 credit_account_id=2 amount=340282366920938463463374607431768211455 ledger=1 code=1 flags=2
48 id=60 debit_account_id=9 credit_account_id=7 amount=340282366920938463463374607431768211455 ledger=1 code=1 flags=2
48 id=60 debit_account_id=6 credit_account_id=2 amount=340282366920938463463374607431768211455 ledger=1 code=1 flags=2
49 id=60 debit_account_id=6 credit_account_id=9 amount=340282366920938463463374607431768211455 ledger=1 code=1
49 id=60 debit_account_id=6 credit_account_id=2 amount=340282366920938463463374607431768211455 ledger=1 code=1
50 id=60 debit_account_id=9 credit_account_id=2 amount=340282366920938463463374607431768211455 ledger=1 code=1
50 id=60 debit_account_id=8 credit_account_id=2 amount=340282366920938463463374607431768211455 ledger=1 code=1
51 id=60 debit_account_id=8 credit_account_id=9 amount=340282366920938463463374607431768211455 ledger=1 code=1
51 id=60 debit_account_id=8 credit_account_id=7 amount=340282366920938463463374607431768211455 ledger=1 code=1
52 id=60 debit_account_id=9 credit_account_id=7 amount=340282366920938463463374607431768211455 ledger=1 code=1
54 id=65 debit_account_id=4 credit_account_id=2 amount=1 ledger=1 code=1
54 id=66 debit_account_id=4 credit_account_id=5 amount=1 ledger=1 code=1
55 id=67 debit_account_id=1 credit_account_id=5 amount=1 ledger=1 code=1
68 id=67 debit_account_id=1 credit_account_id=2 amount=1 ledger=1 code=1
";

#[test]
fn transfer_codes(rt: HostRuntime) {
    assert_codes(&rt, LEDGER, 3, 1, CODES);
}

/// A clock so late that a long timeout overflows. Account 8 has a credit pending and one posted; the
/// debits of account 4 must not exceed its credits.
const LATE_LEDGER: &str = "clock 9000000000000000000
packet 0 129
account id=1 ledger=1 code=1
account id=2 ledger=1 code=1
account id=4 ledger=1 code=1 flags=2
account id=8 ledger=1 code=1
account id=9 ledger=1 code=1
packet 0 130
transfer id=1 debit_account_id=1 credit_account_id=8 amount=1 ledger=1 code=1
transfer id=2 debit_account_id=1 credit_account_id=8 amount=1 ledger=1 code=1 flags=2
";

/// Transfers that follow `LATE_LEDGER`: the code that each is answered, and its fields.
const LATE_CODES: &str =
    "52 id=60 debit_account_id=9 credit_account_id=8 amount=340282366920938463463374607431768211454 timeout=4294967295 ledger=1 code=1 flags=2
53 id=60 debit_account_id=1 credit_account_id=2 amount=1 timeout=4294967295 ledger=1 code=1 flags=2
53 id=60 debit_account_id=4 credit_account_id=2 amount=1 timeout=4294967295 ledger=1 code=1 flags=2
54 id=61 debit_account_id=4 credit_account_id=2 amount=1 timeout=1 ledger=1 code=1 flags=2
";

#[test]
fn late_transfer_codes(rt: HostRuntime) {
    assert_codes(&rt, LATE_LEDGER, 2, 0, LATE_CODES);
}
