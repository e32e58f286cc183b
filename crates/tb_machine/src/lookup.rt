//! Looking accounts up.

ghost use Rattle.std.specs.Prelude.{◌≡◌, ◌<◌, ◌≤◌, ◌+◌, ◌++◌, [], ◌∷◌, length, map, vec_len, vec_capacity};
ghost use Rattle.tb_layout.specs.claim.Bytes.{little_endian};
ghost use Rattle.tb_machine.specs.claim.Replay.{accounts_found};

use tb_layout::{Account, read_id};
use tb_tables::Tables;

/// Puts the account with an id after the others, if it is there.
fn put_found(tables: &Tables, chunk: &[u8; 16], out: &mut Vec<Account>)
    requires { vec_len out.old < vec_capacity out.old }
    ensures found { out.new.items ≡ out.old.items ++ accounts_found tables.now.now (little_endian chunk.now ∷ []) }
    ensures len { vec_len out.new ≤ vec_len out.old + 1 }
    ensures capacity { vec_capacity out.new ≡ vec_capacity out.old }
{
    if let Some(account) = tables.account(read_id(chunk)) {
        out.push_reserved(account);
    }
}

/// Puts the accounts with these ids one after another, with their balances.
pub(crate) fn look_up(tables: &Tables, chunks: &[[u8; 16]], out: &mut Vec<Account>)
    requires empty { out.old.items ≡ [] }
    requires room { length chunks.now ≤ vec_capacity out.old }
    ensures found { out.new.items ≡ accounts_found tables.now.now (map little_endian chunks.now) }
    ensures capacity { vec_capacity out.new ≡ vec_capacity out.old }
{
    for chunk in chunks {
        put_found(tables, chunk, out);
    }
}
