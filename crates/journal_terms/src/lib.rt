//! The journal of a run, in two versions: the text of a history, in version 2 with its sights, a reading of it that gives them back,
//! and which texts are those of legal histories.
//!
//! Each function does nothing; what it ensures is the law.
#![tactic(auto)]

ghost use Rattle.journal_terms.specs.Laws.{TextReadsBack, OneTextOneJournal, JournalTextsAreRead};
ghost use Rattle.journal_terms.specs.Worked.{WorkedJournals, WrongJournals};
ghost use Rattle.journal_terms.specs.Legal.{FirstBadLines};
ghost use Rattle.journal_terms.specs.Growing.{BeginningsAreLegal, HistoriesGrow, JournalsGrow, WhatSuits};
ghost use Rattle.journal_terms.specs.LegalRows.{LegalJournals};
ghost use Rattle.journal_terms.specs.Naming.{LinesAreNamed, SightsFollow};
ghost use Rattle.journal_terms.specs.Strict.{LinesAreRead};

use serial_terms::laws::{calls_and_layouts_law, worked_histories_law};

/// Reading the text of a journal gives the journal back, whatever numbers below 2^64 and whatever calls it has,
/// each with a reply of its call's kind.
pub fn text_reads_back_law()
    ensures { TextReadsBack }
{}

/// So two journals that have one text are one journal.
pub fn one_text_one_journal_law()
    ensures { OneTextOneJournal }
{}

/// So a text is a journal's exactly where the journal that it reads as can be written, and has this text.
pub fn journal_texts_are_read_law()
    ensures { JournalTextsAreRead }
{}

/// Texts that are wrong in one point each are no journal's, also where the reading takes them for one.
pub fn wrong_journals_law()
    ensures { WrongJournals }
{}

/// The texts of worked journals, among them one with each form of each call and one with each form of a sight, are the stated lines.
pub fn worked_journals_law()
    ensures { WorkedJournals }
{}

/// No text has two first bad lines, and a legal journal's text has none.
pub fn first_bad_lines_law()
    ensures { FirstBadLines }
{}

/// A strict reading takes a line for an opening, a record or a sight exactly where it is that one's text.
pub fn lines_are_read_law()
    ensures { LinesAreRead }
{}

/// A legal history goes on by a record exactly where that record may stand behind its last one, has its index and runs from its end.
pub fn histories_grow_law()
    ensures { HistoriesGrow }
{}

/// A title stands first in a legal journal, and behind it sizes in their ranges; with no more it may end.
pub fn beginnings_are_legal_law()
    ensures { BeginningsAreLegal }
{}

/// Behind the lines of a legal journal but for its end stands the end, or a further record or sight with which it is legal; behind the
/// end stands nothing.
pub fn journals_grow_law()
    ensures { JournalsGrow }
{}

/// Which further record, and which further sight, leaves a legal journal legal, each by itself; a strict reading reads them all.
pub fn what_suits_law()
    ensures { WhatSuits }
{}

/// Which line of a text is its first bad one, from what the lines before it begin.
pub fn lines_are_named_law()
    ensures { LinesAreNamed }
{}

/// A further sight suits by its place and caller against the last one's, by its caller's sights, and by the records up to its place.
pub fn sights_follow_law()
    ensures { SightsFollow }
{}

/// A legal run may have written the journal of a worked one; journals that are wrong in one point each, none.
pub fn legal_journals_law()
    ensures { LegalJournals }
{
    worked_histories_law();
    calls_and_layouts_law();
}
