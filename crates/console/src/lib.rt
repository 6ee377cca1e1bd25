// The console: one command a line, and one line in reply.
#![tactic(auto)]

// What a line asks for.
mod command;

pub use command::Command;

// Numbers in a line.
mod numerals;

// The command that a line spells.
mod line;

// Why a line is refused.
mod refusal;

pub use refusal::Refusal;

// What a line is answered with.
mod reply;

pub use reply::{Answer, Reply};

// The site that the console begins with.
mod beginning;

pub use beginning::{LONGEST_FILE, begin};

// Answering a line.
mod answering;

pub use answering::answer;
