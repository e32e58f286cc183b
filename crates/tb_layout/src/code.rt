//! Results of events, found by their numbers.

ghost use Rattle.std.specs.Prelude.{◌≡◌, ℕ, map, is_some, true};
ghost use Rattle.std.specs.Option.{option_map};
ghost use Rattle.tb_layout.specs.clauses.Codes.{first_with, code_in, name_in, read_row};

/// A result of an event.
pub(crate) trait Code: Copy {
    ghost number_of: { Self → ℕ };

    /// Returns the number that a failure carries.
    fn number(self) -> u32
        ensures { result ≡ number_of self };
}

/// Returns the first result with this number, and its name.
pub(crate) fn row_with<C: Code>(
    rows: &[(C, &'static str)],
    number: u32,
) -> Option<(C, &'static str)>
    ensures { option_map read_row result ≡ first_with C.number_of number (map read_row rows.now) }
{
    for row in rows {
        if row.0.number() == number {
            return Some((row.0, row.1));
        }
    }
    None
}

/// Returns the first result with this number.
pub(crate) fn code_with<C: Code>(rows: &[(C, &'static str)], number: u32) -> Option<C>
    ensures { result ≡ code_in (first_with C.number_of number (map read_row rows.now)) }
{
    let (code, _) = row_with(rows, number)?;
    Some(code)
}

/// Returns the name of a result that has a row.
pub(crate) fn name_with<C: Code>(rows: &[(C, &'static str)], code: C) -> &'static str
    requires { is_some (first_with C.number_of (C.number_of code) (map read_row rows.now)) ≡ true }
    ensures { result.now ≡ name_in (first_with C.number_of (C.number_of code) (map read_row rows.now)) }
{
    match row_with(rows, code.number()) {
        Some((_, name)) => name,
        None => unreachable!(),
    }
}

/// Makes an array of an enum's results, each with its name.
macro_rules! rows {
    ($results:ident; $($result:ident => $name:literal,)*) => {
        [$(($results::$result, $name)),*]
    };
}

pub(crate) use rows;
