//! The operations of the packets that are printed, which give the codes of a text their names.

ghost use Rattle.std.specs.Prelude.{◌≡◌, ◌++◌, IfOk, OnOk};
ghost use Rattle.std.specs.List.{flat_map};
ghost use Rattle.tb_program.specs.inside.Drivers.{lists_of};
ghost use Rattle.tb_program.specs.clauses.Operations.{operation_in, operations_of};

use std::alloc::{AllocError, Global};
use tb_layout::NoMemory;
use tb_program_text::ScriptItem;
use tb_work::Packet;

/// Returns the operation of an item's line: 0 unless the item is a packet.
pub(crate) fn operation_in(item: &ScriptItem) -> u8
    ensures { result ≡ operation_in item.now }
{
    match item {
        ScriptItem::Packet(_, packet) => packet.operation,
        ScriptItem::Pulse(_) | ScriptItem::Shut => 0,
    }
}

/// Adds the operations of a submitter's packets.
fn put_operations(out: &mut Vec<u8>, packets: &[Packet]) -> Result<(), AllocError>
    ensures { OnOk result (out.new.items ≡ out.old.items ++ operations_of packets.now) }
{
    for packet in packets {
        out.push(packet.operation)?;
    }
    Ok(())
}

/// Returns the operations of the packets of all submitters, in this order.
pub(crate) fn operations_shared(alloc: Global, shares: &[Vec<Packet>]) -> Result<Vec<u8>, NoMemory>
    ensures { IfOk result (λ operations. operations.items ≡ flat_map operations_of (lists_of shares.now)) }
{
    let mut operations = Vec::new(alloc);
    for packets in shares {
        put_operations(&mut operations, packets)?;
    }
    Ok(operations)
}
