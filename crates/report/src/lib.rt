// The text that tells what a terrain file holds, or why it is refused.
#![tactic(auto)]

// What there is to tell of a file.
mod describe;
// What a refusal says.
mod refusal_lines;
// What a site says.
mod site_lines;

pub use describe::file_text;
