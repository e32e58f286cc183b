//! Packets.

ghost use Rattle.std.specs.Prelude.{◌≡◌, ◌≤◌, ◌+◌, ◌++◌, length, Err, IfOk, OnOk, IfErr, IsOk};
ghost use Rattle.std.specs.List.{flat_map};
ghost use Rattle.tb_layout.specs.clauses.Records.{account_bytes, transfer_bytes};
ghost use Rattle.tb_layout.specs.claim.Account.{account_of};
ghost use Rattle.tb_layout.specs.claim.BytesOfNumbers.{bytes_of};
ghost use Rattle.tb_layout.specs.claim.Bytes.{little_endian};
ghost use Rattle.tb_layout.specs.claim.Events.{accounts_of, ids_of, transfers_of, create_accounts, create_transfers};
ghost use Rattle.tb_layout.specs.claim.EventCounts.{lookup_accounts};
ghost use Rattle.tb_layout.specs.claim.Transfer.{transfer_of};
ghost use Rattle.tb_layout.specs.claim.Bounds.{batch_max};
ghost use Rattle.tb_work.specs.claim.Admission.{admission_of};

use crate::admission::{AdmittedPacket, admit};
use crate::bytes::Bytes;
use crate::refusal::Refusal;
use std::alloc::Global;
use std::fmt;
use std::fmt::{Debug, Formatter};
use tb_layout::{
    Account, CREATE_ACCOUNTS, CREATE_TRANSFERS, EVENT_SIZE, ID_SIZE, LOOKUP_ACCOUNTS, NoMemory,
    Operation, Transfer, write_account, write_id, write_transfer,
};

/// What a submitter hands in: an operation (129 create_accounts, 130 create_transfers,
/// 131 lookup_accounts), the data of its events, and a user word that comes back untouched.
#[derive(Drop)]
pub struct Packet {
    pub operation: u8,
    pub bytes: Bytes,
    pub user: u64,
}

impl Debug for Packet {
    /// Writes the operation, the user word and the number of events, and none of their bytes. An unknown operation is written as its
    /// number. Then, or if the data isn't whole events, the number of bytes takes the place of the events.
    fn fmt<W: fmt::Write>(&self, f: &mut Formatter<W>) -> fmt::Result {
        let mut text = f.debug_struct("Packet");
        match self.operation() {
            Some(operation) => text.field("operation", &operation),
            None => text.field("operation", &self.operation),
        };
        text.field("user", &self.user);
        match admit(u32::MAX, self) {
            Ok(events) => text.field("events", &events),
            Err(_) => text.field("bytes", &self.bytes.as_slice().len()),
        };
        text.finish()
    }
}

/// Puts an account after what is there.
fn add_account(bytes: &mut Vec<u8>, account: &Account) -> Result<(), NoMemory>
    ensures bytes { OnOk result (bytes.new.items ≡ bytes.old.items ++ account_bytes account.now) }
    ensures length { length (account_bytes account.now) ≡ 128 }
    ensures read_back { account_of (account_bytes account.now) ≡ account.now }
{
    bytes.extend_from_slice(&write_account(account))?;
    Ok(())
}

/// Puts a transfer after what is there.
fn add_transfer(bytes: &mut Vec<u8>, transfer: &Transfer) -> Result<(), NoMemory>
    ensures bytes { OnOk result (bytes.new.items ≡ bytes.old.items ++ transfer_bytes transfer.now) }
    ensures length { length (transfer_bytes transfer.now) ≡ 128 }
    ensures read_back { transfer_of (transfer_bytes transfer.now) ≡ transfer.now }
{
    bytes.extend_from_slice(&write_transfer(transfer))?;
    Ok(())
}

/// Puts an id after what is there.
fn add_id(bytes: &mut Vec<u8>, id: u128) -> Result<(), NoMemory>
    ensures bytes { OnOk result (bytes.new.items ≡ bytes.old.items ++ bytes_of 16 id) }
    ensures length { OnOk result (length (bytes_of 16 id) ≡ 16) }
    ensures read_back { OnOk result (little_endian (bytes_of 16 id) ≡ id) }
{
    bytes.extend_from_slice(&write_id(id))?;
    Ok(())
}

/// Returns the accounts in turn, in 128 bytes each.
fn lay_accounts(alloc: Global, accounts: &[Account]) -> Result<Vec<u8>, NoMemory>
    ensures bytes { IfOk result (λ bytes. bytes.items ≡ flat_map account_bytes accounts.now) }
    ensures events { IfOk result (λ bytes. accounts_of bytes.items ≡ accounts.now) }
{
    let mut bytes = Vec::with_capacity(alloc, accounts.len().saturating_mul(EVENT_SIZE))?;
    for account in accounts {
        add_account(&mut bytes, account)?;
    }
    Ok(bytes)
}

/// Returns the transfers in turn, in 128 bytes each.
fn lay_transfers(alloc: Global, transfers: &[Transfer]) -> Result<Vec<u8>, NoMemory>
    ensures bytes { IfOk result (λ bytes. bytes.items ≡ flat_map transfer_bytes transfers.now) }
    ensures events { IfOk result (λ bytes. transfers_of bytes.items ≡ transfers.now) }
{
    let mut bytes = Vec::with_capacity(alloc, transfers.len().saturating_mul(EVENT_SIZE))?;
    for transfer in transfers {
        add_transfer(&mut bytes, transfer)?;
    }
    Ok(bytes)
}

/// Returns the ids in turn, in 16 bytes each.
fn lay_ids(alloc: Global, ids: &[u128]) -> Result<Vec<u8>, NoMemory>
    ensures bytes { IfOk result (λ bytes. bytes.items ≡ flat_map (bytes_of 16) ids.now) }
    ensures events { IfOk result (λ bytes. ids_of bytes.items ≡ ids.now) }
{
    let mut bytes = Vec::with_capacity(alloc, ids.len().saturating_mul(ID_SIZE))?;
    for &id in ids {
        add_id(&mut bytes, id)?;
    }
    Ok(bytes)
}

impl Packet {
    ghost use Rattle.tb_layout.specs.claim.Events.{Accounts, Ids, Transfers};
    ghost use Rattle.tb_layout.specs.clauses.Operations.{operation_of};
    ghost use Rattle.tb_work.specs.claim.Packet.{events_in};

    /// Returns a packet that makes these accounts, in their order, with a user word. Takes 128 bytes of memory an
    /// account, at once. How many a packet may have is its pipeline's limit, 8190 at most, and isn't looked at here.
    pub fn of_accounts(alloc: Global, accounts: &[Account], user: u64) -> Result<Packet, NoMemory>
        ensures operation { IfOk result (λ packet. packet.operation ≡ create_accounts) }
        ensures bytes { IfOk result (λ packet. packet.bytes ≡ flat_map account_bytes accounts.now) }
        ensures events { IfOk result (λ packet. events_in packet ≡ Accounts accounts.now) }
        ensures user { IfOk result (λ packet. packet.user ≡ user) }
    {
        Ok(Packet {
            operation: CREATE_ACCOUNTS,
            bytes: Bytes::from_vec(lay_accounts(alloc, accounts)?),
            user,
        })
    }

    /// Returns a packet that makes these transfers, in their order, with a user word. Takes 128 bytes of memory a
    /// transfer, at once. How many a packet may have is its pipeline's limit, 8190 at most, and isn't looked at here.
    pub fn of_transfers(
        alloc: Global,
        transfers: &[Transfer],
        user: u64,
    ) -> Result<Packet, NoMemory>
        ensures operation { IfOk result (λ packet. packet.operation ≡ create_transfers) }
        ensures bytes { IfOk result (λ packet. packet.bytes ≡ flat_map transfer_bytes transfers.now) }
        ensures events { IfOk result (λ packet. events_in packet ≡ Transfers transfers.now) }
        ensures user { IfOk result (λ packet. packet.user ≡ user) }
    {
        Ok(Packet {
            operation: CREATE_TRANSFERS,
            bytes: Bytes::from_vec(lay_transfers(alloc, transfers)?),
            user,
        })
    }

    /// Returns a packet that looks up the accounts with these ids, in their order, with a user word. Takes 16 bytes of
    /// memory an id, at once. How many a packet may have is its pipeline's limit, 8190 at most, and isn't looked at
    /// here.
    pub fn of_ids(alloc: Global, ids: &[u128], user: u64) -> Result<Packet, NoMemory>
        ensures operation { IfOk result (λ packet. packet.operation ≡ lookup_accounts) }
        ensures bytes { IfOk result (λ packet. packet.bytes ≡ flat_map (bytes_of 16) ids.now) }
        ensures events { IfOk result (λ packet. events_in packet ≡ Ids ids.now) }
        ensures user { IfOk result (λ packet. packet.user ≡ user) }
    {
        Ok(Packet {
            operation: LOOKUP_ACCOUNTS,
            bytes: Bytes::from_vec(lay_ids(alloc, ids)?),
            user,
        })
    }

    /// Returns what the packet asks for, or `None` if its operation is none of 129, 130 and 131.
    pub fn operation(&self) -> Option<Operation>
        ensures { result ≡ operation_of self.now.operation }
    {
        Operation::of_number(self.operation)
    }

    /// Takes the packet as one that `admit` admits under a limit, at most 8190 events.
    ///
    /// # Errors
    ///
    /// The packet as it was, with the refusal of `admit`.
    pub fn admitted(self, limit: u32) -> Result<AdmittedPacket, (Packet, Refusal)>
        requires { limit ≤ batch_max }
        ensures packet { IfOk result (λ admitted. admitted ≡ self) }
        ensures admitted { OnOk result (IsOk (admission_of limit self)) }
        ensures refused { IfErr result (λ refused. (refused.0 ≡ self) × (admission_of limit self ≡ Err refused.1)) }
    {
        match admit(limit, &self) {
            Ok(count) => Ok(AdmittedPacket {
                packet: self,
                count,
            }),
            Err(refusal) => Err((self, refusal)),
        }
    }
}
