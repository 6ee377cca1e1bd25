// A site: its table of records, and loading into it.
#![tactic(auto)]

// A place of the table.
mod node;
// The table of a site's records.
mod table;
// Sums and heights in one pass over the records.
mod measure;
// What is kept while a file's records are loaded.
mod loading;
// One record more on the tree that is being loaded.
mod grow;
// Going through the records of a file.
mod fill;
// The table that a file's records spell.
mod build;
// The site, and all that can be asked of it.
mod site;

pub use node::Node;
pub use site::Site;
