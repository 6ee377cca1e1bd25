// Answering a line.
ghost use Rattle.console.specs.Answer.{after, reply_to};
ghost use Rattle.console.specs.Grammar.{Reads};
ghost use Rattle.console.specs.Reply.{reply_bytes};
ghost use Rattle.console.specs.declared.command.Command.{Command as Asked};
ghost use Rattle.water.specs.State.{Standing};
ghost use Rattle.std.specs.Prelude.{◌≡◌, IfOk, string_bytes, Option as Maybe};

use crate::command::Command;
use crate::reply::{Answer, Reply};
use site::Site;
use std::alloc::{AllocError, Global};

// Does what a line asks of the site, if it is well formed.
#[tactic(auto, using(crate::proofs::Spelling::is_read))]
fn reply_to(site: &mut Site, line: &[u8]) -> Reply
    ensures read { (c : Maybe Asked) × Reads line.now c }
    ensures reply { (c : Maybe Asked) → Reads line.now c → result ≡ reply_to c site.old }
    ensures state { (c : Maybe Asked) → Reads line.now c → site.new ≡ after c site.old }
    ensures stands { Standing site.old → Standing site.new }
{
    match Command::try_from(line)? {
        Command::Rain { leaf, litres } => {
            site.rain(leaf, litres)?;
            Ok(Answer::Done)
        }
        Command::Level { leaf } => Ok(Answer::Level(site.level(leaf)?)),
        Command::Totals => Ok(Answer::Totals(site.totals())),
    }
}

/// Does what a line asks of the site, and answers with the bytes of the reply. The line comes without the byte that
/// ends it. Where there is no memory for the reply, the line has been done all the same.
pub fn answer(heap: Global, site: &mut Site, line: &[u8]) -> Result<String, AllocError>
    ensures read { (c : Maybe Asked) × Reads line.now c }
    ensures text { (c : Maybe Asked) → Reads line.now c → IfOk result (λ t. string_bytes t ≡ reply_bytes (reply_to c site.old)) }
    ensures state { (c : Maybe Asked) → Reads line.now c → site.new ≡ after c site.old }
    ensures stands { Standing site.old → Standing site.new }
{
    match reply_to(site, line) {
        Ok(answer) => format!(in heap; "{answer}\n"),
        Err(refusal) => format!(in heap; "{refusal}\n"),
    }
}
