//! What lines add up to.
ghost use Rattle.std.specs.Prelude.{◌≡◌, ℕ, ◌≤◌, ◌<◌, ◌*◌, ◌+◌, ◌++◌, ◌∷◌, [], List, All, length, slice_index};
ghost use Rattle.afd_records.specs.Record.{last_nsr};
ghost use Rattle.afd_extract.specs.Extract.{counts_of_lines};
ghost use Rattle.afd_extract.specs.Steps.{AddsUpTo, longest_line};

/// What lines of records add up to.
#[derive(Clone, Copy)]
pub(crate) struct Tally {
    /// How many there are of the types 2 to 7.
    pub counts: [u32; 6],
    /// How many bytes they have with their ends.
    pub bytes: u64,
}

impl Tally {
    /// What no lines add up to.
    pub(crate) fn new() -> Tally
        ensures { AddsUpTo [] result }
    {
        Tally {
            counts: [0; 6],
            bytes: 0,
        }
    }

    /// Adds a line, whose tenth byte is the digit of its type.
    pub(crate) fn add(&mut self, line: &[u8])
        requires some { 9 < length line.now }
        requires most { length line.now ≤ longest_line }
        requires counts { All (λ n. n ≤ last_nsr) self.old.counts }
        requires bytes { self.old.bytes ≤ (longest_line + 2) * last_nsr }
        ensures { (lines : List (List ℕ)) → AddsUpTo lines self.old → AddsUpTo (lines ++ line.now ∷ []) self.new }
    {
        self.bytes += line.len() as u64 + 2;
        count(&mut self.counts, line[9]);
    }
}

// Counts a line by its type's digit.
fn count(counts: &mut [u32; 6], digit: u8)
    requires { All (λ n. n ≤ last_nsr) counts.old }
    ensures { (lines : List (List ℕ)) (line : List ℕ) → counts.old ≡ counts_of_lines lines → slice_index line 9 ≡ digit
        → counts.new ≡ counts_of_lines (lines ++ line ∷ []) }
{
    if digit < b'2' || b'7' < digit {
        return;
    }
    counts[usize::from(digit - b'2')] += 1;
}
