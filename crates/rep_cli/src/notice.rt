ghost use Rattle.std.specs.Prelude.{◌≡◌, ◌⊎◌, ◌∷◌, [], None, Some, map, string_bytes, IfSome, IsSome};
ghost use Rattle.std.specs.Io.KnownBytes.{append_known};
ghost use Rattle.rep_io.specs.Causes.{Rose};
ghost use Rattle.rep_cli.specs.Notices.{notice_word};

use rep_io::{Sink, put_all};

/// The status of a program that did what it was asked for.
pub const DONE: u8 = 0;

/// The status of a program whose output failed.
pub const SINK_FAULT: u8 = 5;

/// The program's name and version.
pub const VERSION: &str = "rep 0.1.0\n";

/// How the program is used.
pub const HELP: &str = "\
rep - a recorder of working time whose AFD is proved (REP-P, Portaria MTP 671/2021)

usage: rep print LANE OUT ZONE
       rep create SITE JOURNAL
       rep run SITE JOURNAL LANE
       rep extract SITE JOURNAL FROM TO OUT
       rep receipt SITE JOURNAL NSR
       rep drill SCHEDULE
       rep --help
       rep --version

print   answers the lines of one lane over an empty history and writes its AFD. Nothing is kept.
create  makes a journal whose first record is the employer of the site.
run     answers the lines of one lane over the journal, which keeps what they record.
extract writes the AFD of a period out of the journal.
receipt writes the receipt of a clocking to standard output.
drill   plays a schedule of requests, faults and crashes over a recorder in memory, and says what
        came of each line.

  LANE     the file of a lane: its first line is the head L|ORIGIN|KIND, each line after it a request.
           print wants an operator's lane, of kind 00, that begins with the employer (E|..)
  OUT      the file that the AFD is written to. An older file stays where no AFD is written. It can't
           be a file that the command reads or keeps
  FROM TO  the first and the last day of the period, as 2024-03-04
  NSR      the number of the clocking's record
  ZONE     the offset of the recorder's clock from UTC: a sign and four digits, as -0300
  SITE     the file of the site, in TOML: the employer, the recorder, the offset of its clock
  JOURNAL  the file of the journal, which create makes. One program at a time works on it, or several
           that only read it
  SCHEDULE the file of a schedule, one event a line: docs/formats.md has their forms

A line is answered by a receipt (R|..), a refusal (N|..) or an extraction (F|.., with the AFD behind
it): print writes the answers to standard output, run to a file beside the lane's, whose name is LANE
with .out behind it. Standard output gets the counts (RUN|.., EXTRACT|.., DRILL|..), CREATED|1 or the receipt,
and then, where the status is 2 or more, a line that tells it (FAULT|STATUS|..). docs/formats.md and
docs/journal-format.md explain the files and these lines.

status   0  all was done
         1  all was done, and some request was refused
         2  the words are those of no command
         3  a text, the dates or the number was refused: FAULT|3|SITE|KEY, FAULT|3|LANE|1|LINE,
            FAULT|3|DATES, FAULT|3|NOSUCHNSR|NSR, FAULT|3|NOTACLOCKING|NSR or FAULT|3|SCHEDULE|LINE
         4  a file couldn't be read
         5  a file or standard output couldn't be written, or is one that the command reads, keeps or
            writes besides
         6  the journal's file failed, or another program works on it
         7  the clock couldn't be read
         8  there wasn't enough memory
         9  the journal's file holds none, or one already, or a damaged one: FAULT|9|..
        10  a text has more than 268435456 bytes

example: rep create site.toml acme.journal
         rep run site.toml acme.journal workers.lane
         rep extract site.toml acme.journal 2024-03-01 2024-03-31 march.afd
";

/// What the program tells of itself.
#[derive(Clone, Copy, Debug, PartialEq, Eq)]
pub enum Notice {
    Help,
    Version,
}

impl Notice {
    /// The text that is printed.
    pub fn text(self) -> &'static str
        ensures help { self ≡ Notice.Help → result.now ≡ HELP.now }
        ensures version { self ≡ Notice.Version → result.now ≡ VERSION.now }
    {
        match self {
            Notice::Help => HELP,
            Notice::Version => VERSION,
        }
    }
}

/// The notice that the words ask for: its word is the only one. `None` exactly where there is no such notice.
pub fn asked_notice(words: &[String]) -> Option<Notice>
    ensures found { IfSome result (λ notice. map string_bytes words.now ≡ notice_word notice ∷ []) }
    ensures only { (notice : Notice) → map string_bytes words.now ≡ notice_word notice ∷ []
        → result ≡ Some notice }
{
    match words {
        [word] => notice_of(word.as_str()),
        _ => None,
    }
}

/// The notice that a word asks for.
fn notice_of(word: &str) -> Option<Notice>
    ensures found { IfSome result (λ notice. word.now ≡ notice_word notice) }
    ensures only { (notice : Notice) → word.now ≡ notice_word notice → result ≡ Some notice }
{
    match word {
        "--help" => Some(Notice::Help),
        "--version" => Some(Notice::Version),
        _ => None,
    }
}

/// Writes the notice that the words ask for to the output, and answers the program's status. `None` exactly where they
/// ask for none; then nothing is written.
pub fn answer_notice<K: Sink>(out: &mut K, words: &[String]) -> Option<u8>
    ensures none { result ≡ None → (notice : Notice) → map string_bytes words.now ≡ notice_word notice ∷ [] → ⊥ }
    ensures untouched { result ≡ None → out.new ≡ out.old }
    ensures status { IfSome result (λ status. (status ≡ DONE) ⊎ (status ≡ SINK_FAULT)) }
    ensures fault { result ≡ Some SINK_FAULT → Rose (K.faults out.old) (K.faults out.new) }
    ensures asked { IsSome result → (notice : Notice) × (map string_bytes words.now ≡ notice_word notice ∷ []) }
    ensures help { map string_bytes words.now ≡ notice_word Notice.Help ∷ [] → result ≡ Some DONE
        → K.written out.new ≡ append_known (K.written out.old) HELP.now }
    ensures version { map string_bytes words.now ≡ notice_word Notice.Version ∷ [] → result ≡ Some DONE
        → K.written out.new ≡ append_known (K.written out.old) VERSION.now }
{
    match asked_notice(words) {
        Some(notice) => Some(print_text(out, notice.text())),
        None => None,
    }
}

/// Writes a text to the output, and answers the program's status.
pub fn print_text<K: Sink>(out: &mut K, text: &str) -> u8
    ensures written { result ≡ DONE
        → K.written out.new ≡ append_known (K.written out.old) text.now }
    ensures status { (result ≡ DONE) ⊎ (result ≡ SINK_FAULT) }
    ensures fault { (result ≡ DONE → ⊥)
        → (result ≡ SINK_FAULT) × Rose (K.faults out.old) (K.faults out.new) }
{
    match put_all(out, text.as_bytes()) {
        Ok(()) => DONE,
        Err(_) => SINK_FAULT,
    }
}
