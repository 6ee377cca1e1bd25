// The site that the console begins with.
ghost use Rattle.console.specs.Begin.{begun, counted};
ghost use Rattle.questions.specs.Ask.{first_no};
ghost use Rattle.site.specs.Loaded.{Loaded};
ghost use Rattle.site.specs.Questions.{questions};
ghost use Rattle.std.specs.Prelude.{◌≡◌, IfOk, Some as Just, None as Nothing, string_bytes};
ghost use Rattle.std.specs.Option.{option_map};
ghost use Rattle.terrain.specs.declared.refusal.Refusal.{Refusal as WhyNot};

use crate::refusal::Refusal;
use site::Site;
use std::alloc::{AllocError, Global};

/// The longest terrain file that can be accepted: a note of 1,024 bytes, 1,023 records of 16, and the trailer of 12.
pub const LONGEST_FILE: usize = 17_404;

// A file that is too long counts as empty.
fn readable(file: &[u8]) -> &[u8]
    ensures { result.now ≡ counted file.now }
{
    if file.len() > LONGEST_FILE { &[] } else { file }
}

/// Loads the site's file. A refusal is answered with the line that tells its number, and changes nothing.
// An `Option` of that line, and no `Err`: the contract states every byte that goes out, its end too.
pub fn begin(heap: Global, site: &mut Site, file: &[u8]) -> Result<Option<String>, AllocError>
    ensures told { IfOk result (λ o. option_map string_bytes o ≡ begun (counted file.now)) }
    ensures loaded { first_no (questions (counted file.now)) ≡ Nothing → Loaded (counted file.now) site.new }
    ensures kept { (x : WhyNot) → first_no (questions (counted file.now)) ≡ Just x → site.new ≡ site.old }
{
    match site.load(readable(file)) {
        Ok(()) => Ok(None),
        Err(refusal) => {
            let refusal = Refusal::from(refusal);
            let text = format!(in heap; "{refusal}\n")?;
            Ok(Some(text))
        }
    }
}
