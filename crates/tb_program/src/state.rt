//! The lines of a state.

ghost use Rattle.std.specs.Prelude.{◌≡◌, ◌++◌, OnOk, flat_map, string_bytes};
ghost use Rattle.tb_machine.specs.clauses.Accounts.{balanced_accounts};
ghost use Rattle.tb_program_text.specs.clauses.Output.{account_line};
ghost use Rattle.tb_program.specs.clauses.Listing.{state_text};

use std::alloc::AllocError;
use tb_machine::Machine;
use tb_program_text::{put_account, put_clock};

fn put_accounts(out: &mut String, machine: &Machine) -> Result<(), AllocError>
    ensures { OnOk result (string_bytes out.new ≡ string_bytes out.old
        ++ flat_map account_line (balanced_accounts machine.now.facts)) }
{
    for place in 0..machine.accounts() {
        let account = machine.account_at(place).unwrap();
        put_account(out, &account)?;
    }
    Ok(())
}

/// Adds the line of the clock, and those of the accounts in the order of their making.
pub fn put_state(out: &mut String, machine: &Machine) -> Result<(), AllocError>
    ensures { OnOk result (string_bytes out.new ≡ string_bytes out.old ++ state_text machine.now) }
{
    put_clock(out, machine.clock())?;
    put_accounts(out, machine)
}
