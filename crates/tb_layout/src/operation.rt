//! The operations, by the numbers that a packet carries (requests reference of TigerBeetle).

ghost use Rattle.std.specs.Prelude.{◌≡◌};

/// Makes accounts: events of 128 bytes, and the failures are answered.
pub const CREATE_ACCOUNTS: u8 = 129;

/// Makes transfers: events of 128 bytes, and the failures are answered.
pub const CREATE_TRANSFERS: u8 = 130;

/// Looks accounts up: ids of 16 bytes, and the accounts that are there are answered.
pub const LOOKUP_ACCOUNTS: u8 = 131;

/// What a packet asks for, named as TigerBeetle names it.
#[derive(Clone, Copy, Debug, PartialEq, Eq)]
pub enum Operation {
    CreateAccounts,
    CreateTransfers,
    LookupAccounts,
}

impl Operation {
    ghost use Rattle.tb_layout.specs.clauses.Operations.{name_of, number_of, operation_of};

    /// Returns the number that a packet carries.
    pub fn number(self) -> u8
        ensures { result ≡ number_of self }
    {
        match self {
            Operation::CreateAccounts => CREATE_ACCOUNTS,
            Operation::CreateTransfers => CREATE_TRANSFERS,
            Operation::LookupAccounts => LOOKUP_ACCOUNTS,
        }
    }

    /// Returns the operation that has this number; None for all but 129, 130 and 131.
    pub fn of_number(number: u8) -> Option<Operation>
        ensures { result ≡ operation_of number }
    {
        match number {
            CREATE_ACCOUNTS => Some(Operation::CreateAccounts),
            CREATE_TRANSFERS => Some(Operation::CreateTransfers),
            LOOKUP_ACCOUNTS => Some(Operation::LookupAccounts),
            _ => None,
        }
    }

    /// Returns TigerBeetle's name of the operation.
    pub fn name(self) -> &'static str
        ensures { result.now ≡ name_of self }
    {
        match self {
            Operation::CreateAccounts => "create_accounts",
            Operation::CreateTransfers => "create_transfers",
            Operation::LookupAccounts => "lookup_accounts",
        }
    }
}
