// What a journal's text tells. Each function does nothing; what it ensures is the law.
ghost use Rattle.journal_writer.specs.Laws.{LegalJournals, TextsTell};

use journal_terms::one_text_one_journal_law;
use serial_terms::laws::{records_keep_sizes_law, replies_have_kinds_law};

/// A text of version 1 tells the sizes and the records, one of version 2 the sights, too; and no text is
/// of both versions.
pub fn texts_tell_law()
    ensures { TextsTell }
{
    one_text_one_journal_law();
}

/// The journal of a legal run is one that an audit says yes of, in both versions: of any run whose records are a
/// legal history and whose sights are its sights, with all numbers in their ranges.
pub fn legal_journals_law()
    ensures { LegalJournals }
{
    records_keep_sizes_law();
    replies_have_kinds_law();
}
