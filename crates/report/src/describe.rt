// What there is to tell of a terrain file.
ghost use Rattle.questions.specs.Ask.{first_no, refusal_in};
ghost use Rattle.report.specs.FileText.{accepted_text, file_text};
ghost use Rattle.site.specs.Questions.{questions};
ghost use Rattle.std.specs.Prelude.{◌≡◌, IfOk, string_bytes};

use crate::refusal_lines::RefusalLines;
use crate::site_lines::SiteLines;
use site::Site;
use std::alloc::{AllocError, Global};
use terrain::{Reader, Refusal};

// The lines on a file that is accepted, or the first question answered no. The site lies in this function's frame: it is
// too large to be handed up in a `Result`.
fn accepted_text(heap: Global, file: &[u8]) -> Result<Result<String, AllocError>, Refusal>
    ensures refusal { refusal_in result ≡ first_no (questions file.now) }
    ensures text { IfOk result (λ text. IfOk text (λ s. string_bytes s ≡ accepted_text file.now)) }
{
    let trailer = Reader::new(file).trailer()?;
    let mut site = Site::fresh();
    site.load(file)?;
    let lines = SiteLines {
        edition: trailer.edition,
        note: trailer.note,
        nodes: site.records(),
        volume: site.volume(),
        height: site.height(),
    };
    Ok(lines.to_string(heap))
}

/// The lines on a file: what it holds if it is accepted, else why it is refused.
pub fn file_text(heap: Global, file: &[u8]) -> Result<String, AllocError>
    ensures { IfOk result (λ s. string_bytes s ≡ file_text file.now) }
{
    match accepted_text(heap, file) {
        Ok(text) => text,
        Err(refusal) => RefusalLines(refusal).to_string(heap),
    }
}
