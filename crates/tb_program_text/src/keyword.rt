//! The words that begin lines.

ghost use Rattle.std.specs.Prelude.{◌≡◌};
ghost use Rattle.tb_program_text.specs.clauses.Keyword.{keyword_of};

use crate::table::look_up;

/// What a line says, by its first word.
#[derive(Clone, Copy)]
pub(crate) enum Keyword {
    Clock,
    Limit,
    Capacity,
    Credit,
    Submitters,
    Packet,
    Account,
    Transfer,
    Id,
    Hex,
    Pulse,
    Shut,
}

/// The words with their keywords, those first that a script has most often.
const KEYWORDS: [(&[u8], Keyword); 12] = [
    (b"transfer", Keyword::Transfer),
    (b"packet", Keyword::Packet),
    (b"account", Keyword::Account),
    (b"id", Keyword::Id),
    (b"pulse", Keyword::Pulse),
    (b"hex", Keyword::Hex),
    (b"shut", Keyword::Shut),
    (b"clock", Keyword::Clock),
    (b"limit", Keyword::Limit),
    (b"capacity", Keyword::Capacity),
    (b"credit", Keyword::Credit),
    (b"submitters", Keyword::Submitters),
];

/// Returns the keyword that a word spells.
#[tactic(auto, unfolding(crate::specs::clauses::Keyword::keyword_of))]
pub(crate) fn keyword_of(word: &[u8]) -> Option<Keyword>
    ensures { result ≡ keyword_of word.now }
{
    look_up(&KEYWORDS, word)
}
