//! Tables of words.

ghost use Rattle.std.specs.Prelude.{◌≡◌, map};
ghost use Rattle.tb_program_text.specs.clauses.Steps.{look_up};

/// Returns the value that a table has for a word.
#[inline(always)]
pub(crate) fn look_up<T: Copy>(mut table: &[(&[u8], T)], word: &[u8]) -> Option<T>
    ensures { result ≡ look_up word.now (map (λ row. (row.0.now, row.1)) table.entry.now) }
{
    while let [(name, value), rest @ ..] = table {
        if word == *name {
            return Some(*value);
        }
        table = rest;
    }
    None
}
