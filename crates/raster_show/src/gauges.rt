// What a user's contract over a pile of rasters looks like. The grids compute, so none of these has a proof file.
ghost use Rattle.std.specs.Prelude.{◌≡◌, ◌*◌, ◌/◌};

use raster::{Raster, Shifted, Size, Uniform, Weighted, Zone, Zones};

/// What three quarters of a gauge's litres are in a pile of one cell.
pub fn three_quarters(litres: u32) -> u64
    ensures { result ≡ litres * 3 / 4 }
{
    let gauge = Uniform {
        size: Size { rows: 1, cols: 1 },
        number: u64::from(litres),
    };
    let pile = Weighted {
        below: gauge,
        p: 3,
        q: 4,
    };
    pile.cell(0, 0)
}

/// Half the number of a zone that is moved one row down and two columns to the left.
pub fn half_of_a_moved_zone(number: u32) -> u64
    ensures { result ≡ number / 2 }
{
    let zones = [Zone {
        top: 0,
        left: 4,
        height: 2,
        width: 2,
        number: u64::from(number),
    }];
    let pile = Weighted {
        below: Shifted {
            below: Zones {
                size: Size { rows: 4, cols: 6 },
                zones: &zones,
            },
            dr: 1,
            dc: -2,
        },
        p: 1,
        q: 2,
    };
    pile.cell(2, 3)
}
