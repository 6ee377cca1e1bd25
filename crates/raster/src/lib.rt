// Rasters by their meaning: a grid of numbers, whatever it is made of.
#![tactic(auto)]

// What a raster shows, and that a lent one is one too.
mod raster;

pub use raster::{NO_NUMBER, Raster};

// How large a raster is.
mod size;

pub use size::Size;

// Numbers in row order.
mod plain;

pub use plain::Plain;

// One number everywhere.
mod uniform;

pub use uniform::Uniform;

// Rectangles of one number each.
mod zones;

pub use zones::{Zone, Zones};

// Numbers by weight, over any raster.
mod weighted;

pub use weighted::{MOST_WEIGHED, Weighted};

// Moved over its own rows and columns, any raster.
mod shifted;

pub use shifted::Shifted;
