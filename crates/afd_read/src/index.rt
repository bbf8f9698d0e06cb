ghost use Rattle.std.specs.Prelude.{◌≡◌, ◌+◌, ◌<◌, ◌≤◌, length, IfOk};
ghost use Rattle.rep_io.specs.Lines.{longest_text, run_text};
ghost use Rattle.afd_read.specs.Index.{bounds_of, IsBetween};
ghost use Rattle.afd_read.specs.Numbered.{line_count, run_at};

use crate::line_end::first_len;
use std::alloc::{AllocError, Global};

// The places where the lines of the text begin, and where the last one ends.
pub(crate) fn index_of(alloc: Global, text: &[u8]) -> Result<Vec<u32>, AllocError>
    requires { length text.now ≤ longest_text }
    ensures { IfOk result (λ bounds. bounds.items ≡ bounds_of text.now) }
{
    let mut bounds = Vec::new(alloc);
    let mut at = 0;
    while at < text.len() {
        bounds.push(at as u32)?;
        at += first_len(&text[at..]);
    }
    bounds.push(at as u32)?;
    Ok(bounds)
}

// The line that begins at this place of the bounds, with its end.
pub(crate) fn run_between<'a>(text: &'a [u8], bounds: &[u32], place: usize) -> &'a [u8]
    requires indexed { bounds.now ≡ bounds_of text.now }
    requires within { place < line_count text.now }
    ensures { result.now ≡ run_text (run_at text.now (place + 1)) }
{
    let (start, end) = bounds_at(text, bounds, place);
    &text[start..end]
}

// Where that line begins and ends.
fn bounds_at(text: &[u8], bounds: &[u32], place: usize) -> (usize, usize)
    requires indexed { bounds.now ≡ bounds_of text.now }
    requires within { place < line_count text.now }
    requires room { place + 1 < length bounds.now }
    ensures { IsBetween text.now result.0 result.1 (run_at text.now (place + 1)) }
{
    (bounds[place] as usize, bounds[place + 1] as usize)
}
