// Shows what a pile of rasters means, layer by layer, as maps of numbers.
#![tactic(auto)]

use raster::{Plain, Raster, Shifted, Size, Weighted, Zone, Zones};
use raster_text::Map;

// What a user's contract over a pile looks like.
mod gauges;
// Each rule at its edges.
#[cfg(test)]
mod tests;

// The second zone reaches past the last row, and the first lies over a part of it.
const ZONES: [Zone; 2] = [
    Zone {
        top: 0,
        left: 2,
        height: 3,
        width: 3,
        number: 12,
    },
    Zone {
        top: 1,
        left: 3,
        height: 65535,
        width: 4,
        number: 9,
    },
];

// Ten numbers for twelve cells.
const NUMBERS: [u64; 10] = [0, 1, 2, 3, 10, 11, 12, 13, 20, 21];

// A title and the map below it.
fn show(rt: &impl Print, title: &str, raster: &impl Raster) -> anyhow::Result<()> {
    println!(rt; "{title}")?;
    rt.print(Map(raster))?;
    Ok(())
}

fn run(rt: &impl Print) -> anyhow::Result<()> {
    let zones = Zones {
        size: Size { rows: 5, cols: 8 },
        zones: &ZONES,
    };
    show(rt, "zones", &zones)?;
    let shifted = Shifted {
        below: zones,
        dr: 1,
        dc: -2,
    };
    show(rt, "shifted by 1 and -2", &shifted)?;
    let weighted = Weighted {
        below: shifted,
        p: 3,
        q: 4,
    };
    show(rt, "weighted by 3/4", &weighted)?;
    let plain = Plain {
        size: Size { rows: 3, cols: 4 },
        numbers: &NUMBERS,
    };
    show(rt, "plain", &plain)
}

fn main(rt: HostRuntime) -> anyhow::Result<()> {
    run(&rt)
}
