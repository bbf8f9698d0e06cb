//! Laws of the definitions. Each function does nothing; what it ensures is the law.
ghost use Rattle.std.specs.Prelude.{◌≡◌, List};
ghost use Rattle.afd_records.specs.File.{counts_of, file_text};
ghost use Rattle.afd_records.specs.declared.header.Head.{Head};
ghost use Rattle.rep_wire.specs.declared.request.Entry.{Entry};
ghost use Rattle.rep_core.specs.History.{bodies_of};
ghost use Rattle.rep_core.specs.Chained.{history_lines};
ghost use Rattle.rep_journal.specs.Format.{Framed};
ghost use Rattle.afd_extract.specs.Period.{Range, in_range};
ghost use Rattle.afd_extract.specs.Extract.{extract_text, lines_in, lines_of};

/// Where the frames have the lines of a history, the AFD of a range has the lines of its records, and the trailer counts
/// these records by type.
pub fn an_extract_is_the_file_of_its_records()
    ensures { (head : Head) (h : List Entry) (frames : List Framed) (range : Range) → lines_of frames ≡ history_lines h
        → extract_text head (lines_in frames range)
        ≡ file_text head (in_range range (history_lines h)) (counts_of (in_range range (bodies_of h))) }
{}
