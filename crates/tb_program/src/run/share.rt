//! What each thread is to queue.

ghost use Rattle.std.specs.Prelude.{◌≡◌, ◌++◌, ◌∷◌, [], List, false, ◌||◌, length, OnOk, IfOk};
ghost use Rattle.tb_program.specs.clauses.Sharing.{AreDealt, is_shut, moment_in, moments_asked, shuts_in};
ghost use Rattle.tb_program_text.specs.declared.item.ScriptItem.{ScriptItem as ItemValue};
ghost use Rattle.tb_program_text.specs.declared.item.ScriptItem.TheVariants.{Packet as PacketItem};

use std::alloc::Global;
use tb_drive::ControlPlan;
use tb_layout::NoMemory;
use tb_program_text::{ScriptItem, SubmitterNumber};
use tb_work::Packet;

/// The items of a script by the threads that queue them: the packets of each submitter, and the control's lines.
#[derive(Drop)]
pub(crate) struct Shares {
    pub(crate) packets: Vec<Vec<Packet>>,
    pub(crate) lines: ControlPlan,
}

impl Shares {
    /// Returns no items yet, for this number of submitters.
    fn new(alloc: Global, submitters: u32) -> Result<Shares, NoMemory>
        ensures number { IfOk result (λ shares. length shares.packets.items ≡ submitters) }
        ensures packets { IfOk result (λ shares. AreDealt 0 shares.packets.items []) }
        ensures lines { IfOk result (λ shares. (shares.lines.moments.items ≡ []) × (shares.lines.shuts ≡ false)) }
    {
        let mut packets = Vec::new(alloc);
        for _ in 0..submitters {
            packets.push(Vec::new(alloc))?;
        }
        Ok(Shares {
            packets,
            lines: ControlPlan::none(alloc),
        })
    }

    /// Adds a packet to its submitter's. That is there: else the script's line was faulty.
    fn add_packet(&mut self, submitter: SubmitterNumber, packet: Packet) -> Result<(), NoMemory>
        ensures number { length self.new.packets.items ≡ length self.old.packets.items }
        ensures packets { (items : List ItemValue) → AreDealt 0 self.old.packets.items items
            → OnOk result (AreDealt 0 self.new.packets.items (items ++ PacketItem submitter packet ∷ [])) }
        ensures lines { self.new.lines ≡ self.old.lines }
    {
        if let Some(packets) = self.packets.get_mut(submitter.get() as usize) {
            packets.push(packet)?;
        }
        Ok(())
    }

    /// Adds an item to those of the thread that queues it.
    fn add(&mut self, item: ScriptItem) -> Result<(), NoMemory>
        ensures number { length self.new.packets.items ≡ length self.old.packets.items }
        ensures packets { (items : List ItemValue) → AreDealt 0 self.old.packets.items items
            → OnOk result (AreDealt 0 self.new.packets.items (items ++ item ∷ [])) }
        ensures moments { OnOk result (self.new.lines.moments.items ≡ self.old.lines.moments.items ++ moment_in item) }
        ensures shuts { OnOk result (self.new.lines.shuts ≡ (self.old.lines.shuts || is_shut item)) }
    {
        match item {
            ScriptItem::Packet(submitter, packet) => self.add_packet(submitter, packet)?,
            ScriptItem::Pulse(moment) => self.lines.moments.push(moment)?,
            ScriptItem::Shut => self.lines.shuts = true,
        }
        Ok(())
    }
}

/// Deals the items of a script out. No byte of a packet is copied.
pub(crate) fn share_out(
    alloc: Global,
    submitters: u32,
    items: Vec<ScriptItem>,
) -> Result<Shares, NoMemory>
    ensures number { IfOk result (λ shares. length shares.packets.items ≡ submitters) }
    ensures packets { IfOk result (λ shares. AreDealt 0 shares.packets.items items.items) }
    ensures moments { IfOk result (λ shares. shares.lines.moments.items ≡ moments_asked items.items) }
    ensures shuts { IfOk result (λ shares. shares.lines.shuts ≡ shuts_in items.items) }
{
    let mut shares = Shares::new(alloc, submitters)?;
    for item in items {
        shares.add(item)?;
    }
    Ok(shares)
}
