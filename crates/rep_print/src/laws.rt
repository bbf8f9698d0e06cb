//! A law of the definitions. The function does nothing; what it ensures is the law.
ghost use Rattle.std.specs.Prelude.{◌≡◌, List};
ghost use Rattle.afd_records.specs.File.{counts_of, file_text};
ghost use Rattle.afd_records.specs.declared.header.Head.{Head};
ghost use Rattle.rep_wire.specs.declared.request.Entry.{Entry};
ghost use Rattle.rep_core.specs.History.{bodies_of};
ghost use Rattle.rep_core.specs.Chained.{history_lines};
ghost use Rattle.rep_journal.specs.Format.{Framed};
ghost use Rattle.rep_ledger.specs.Ledger.{frames_of};
ghost use Rattle.afd_extract.specs.Extract.{extract_text, lines_of};

use afd_extract::an_extract_is_the_file_of_its_records;

/// The AFD of all frames of a history is that of all its records.
pub(crate) fn the_frames_of_a_history_make_its_file()
    ensures { (head : Head) (h : List Entry) (frames : List Framed) → frames ≡ frames_of h
        → extract_text head (lines_of frames) ≡ file_text head (history_lines h) (counts_of (bodies_of h)) }
{
    an_extract_is_the_file_of_its_records();
}
