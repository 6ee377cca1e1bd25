// The command that a line spells. The byte that ends the line is already taken off.
ghost use Rattle.console.specs.Parts.{IsReading};

use crate::command::Command;
use crate::numerals::{MOST_DIGITS, number, two_numbers};
use crate::refusal::Refusal;
use water::{Leaf, Litres};

// The longest command is rain: `R `, and two numbers with a space between them.
const LONGEST_COMMAND: usize = 2 + MOST_DIGITS + 1 + MOST_DIGITS;

impl TryFrom<&[u8]> for Command {
    type Error = Refusal;

    ghost try_from_gives = { λ line r. IsReading line.now r };

    fn try_from(line: &[u8]) -> Result<Command, Refusal> {
        // A line of any length may come, and no byte of one that is too long is looked at.
        if line.len() > LONGEST_COMMAND {
            return Err(Refusal::NotWellFormed);
        }
        if let Some(rest) = line.strip_prefix(b"R ") {
            let (leaf, litres) = two_numbers(rest).ok_or(Refusal::NotWellFormed)?;
            Ok(Command::Rain {
                leaf: Leaf(leaf),
                litres: Litres(litres),
            })
        } else if let Some(rest) = line.strip_prefix(b"L ") {
            let leaf = number(rest).ok_or(Refusal::NotWellFormed)?;
            Ok(Command::Level { leaf: Leaf(leaf) })
        } else if line == b"O".as_slice() {
            Ok(Command::Totals)
        } else {
            Err(Refusal::NotWellFormed)
        }
    }
}
