// Each rule at its edges. The expected numbers follow from the rules by hand.
use crate::gauges::{half_of_a_moved_zone, three_quarters};
use raster::{
    MOST_WEIGHED, NO_NUMBER, Plain, Raster, Shifted, Size, Uniform, Weighted, Zone, Zones,
};
use raster_text::map_text;
use std::test::Fail;

const NUMBERS: [u64; 6] = [10, 11, 12, 20, 21, 22];

// Two rows of three: 10 11 12 and 20 21 22.
fn six() -> Plain<'static> {
    Plain {
        size: Size { rows: 2, cols: 3 },
        numbers: &NUMBERS,
    }
}

#[test]
fn plain_is_in_row_order(rt: HostRuntime) {
    assert_eq!(rt; six().rows(), 2);
    assert_eq!(rt; six().cols(), 3);
    assert_eq!(rt; six().cell(0, 2), 12);
    assert_eq!(rt; six().cell(1, 0), 20);
    assert_eq!(rt; six().cell(2, 0), NO_NUMBER);
    assert_eq!(rt; six().cell(0, 3), NO_NUMBER);
}

#[test]
fn plain_past_the_end_has_no_number(rt: HostRuntime) {
    let large = Plain {
        size: Size {
            rows: 65535,
            cols: 65535,
        },
        numbers: &NUMBERS,
    };
    assert_eq!(rt; large.cell(0, 5), 22);
    assert_eq!(rt; large.cell(0, 6), NO_NUMBER);
    assert_eq!(rt; large.cell(65534, 65534), NO_NUMBER);
    let none = Plain {
        size: Size { rows: 1, cols: 1 },
        numbers: &[],
    };
    assert_eq!(rt; none.cell(0, 0), NO_NUMBER);
}

#[test]
fn uniform_is_the_same_everywhere(rt: HostRuntime) {
    let uniform = Uniform {
        size: Size { rows: 2, cols: 1 },
        number: 7,
    };
    assert_eq!(rt; uniform.rows(), 2);
    assert_eq!(rt; uniform.cols(), 1);
    assert_eq!(rt; uniform.cell(1, 0), 7);
    assert_eq!(rt; uniform.cell(0, 1), NO_NUMBER);
    assert_eq!(rt; uniform.cell(2, 0), NO_NUMBER);
}

#[test]
fn no_zones_are_zero_everywhere(rt: HostRuntime) {
    let zones = Zones {
        size: Size { rows: 2, cols: 3 },
        zones: &[],
    };
    assert_eq!(rt; zones.rows(), 2);
    assert_eq!(rt; zones.cols(), 3);
    assert_eq!(rt; zones.cell(1, 2), 0);
    assert_eq!(rt; zones.cell(2, 2), NO_NUMBER);
    assert_eq!(rt; zones.cell(1, 3), NO_NUMBER);
}

#[test]
fn a_zone_ends_before_its_edge(rt: HostRuntime) {
    let zone = Zone {
        top: 1,
        left: 2,
        height: 2,
        width: 3,
        number: 5,
    };
    assert!(rt; zone.covers(1, 2));
    assert!(rt; zone.covers(2, 4));
    assert!(rt; !zone.covers(0, 2));
    assert!(rt; !zone.covers(3, 2));
    assert!(rt; !zone.covers(1, 1));
    assert!(rt; !zone.covers(1, 5));
}

// The first has no cells, the second lies over the third, and the third reaches past 65,535.
const LAYERS: [Zone; 3] = [
    Zone {
        top: 0,
        left: 0,
        height: 0,
        width: 65535,
        number: 1,
    },
    Zone {
        top: 65533,
        left: 65533,
        height: 1,
        width: 1,
        number: 2,
    },
    Zone {
        top: 65533,
        left: 65533,
        height: 65535,
        width: 65535,
        number: 3,
    },
];

#[test]
fn the_first_zone_counts_up_to_the_last_cell(rt: HostRuntime) {
    let zones = Zones {
        size: Size {
            rows: 65535,
            cols: 65535,
        },
        zones: &LAYERS,
    };
    assert_eq!(rt; zones.cell(0, 0), 0);
    assert_eq!(rt; zones.cell(65532, 65533), 0);
    assert_eq!(rt; zones.cell(65533, 65533), 2);
    assert_eq!(rt; zones.cell(65534, 65534), 3);
    assert_eq!(rt; zones.cell(65535, 65534), NO_NUMBER);
}

// One number by weight.
fn by_weight(number: u64, p: u16, q: u16) -> u64 {
    let size = Size { rows: 1, cols: 1 };
    let pile = Weighted {
        below: Uniform { size, number },
        p,
        q,
    };
    pile.cell(0, 0)
}

#[test]
fn weights_round_down_within_their_bound(rt: HostRuntime) {
    assert_eq!(rt; by_weight(3, 1, 2), 1);
    assert_eq!(rt; by_weight(7, 0, 5), 0);
    assert_eq!(rt; by_weight(7, 5, 0), NO_NUMBER);
    assert_eq!(rt; by_weight(0, 0, 0), NO_NUMBER);
    assert_eq!(rt; by_weight(MOST_WEIGHED, 1, 1), 4294967295);
    assert_eq!(rt; by_weight(MOST_WEIGHED, 65535, 1), 281470681677825);
    assert_eq!(rt; by_weight(4294967296, 0, 1), NO_NUMBER);
    assert_eq!(rt; by_weight(NO_NUMBER, 1, 65535), NO_NUMBER);
}

#[test]
fn a_weighted_raster_has_the_size_of_the_one_below(rt: HostRuntime) {
    let pile = Weighted {
        below: six(),
        p: 2,
        q: 1,
    };
    assert_eq!(rt; pile.rows(), 2);
    assert_eq!(rt; pile.cols(), 3);
    assert_eq!(rt; pile.cell(1, 2), 44);
    assert_eq!(rt; pile.cell(2, 0), NO_NUMBER);
    assert_eq!(rt; pile.cell(0, 3), NO_NUMBER);
}

// One cell of the six after a shift.
fn after_shift(dr: i32, dc: i32, row: u16, col: u16) -> u64 {
    let pile = Shifted {
        below: six(),
        dr,
        dc,
    };
    pile.cell(row, col)
}

#[test]
fn a_shift_moves_numbers_and_leaves_zeros(rt: HostRuntime) {
    assert_eq!(rt; after_shift(1, 0, 1, 2), 12);
    assert_eq!(rt; after_shift(1, 0, 0, 2), 0);
    assert_eq!(rt; after_shift(-1, 0, 0, 2), 22);
    assert_eq!(rt; after_shift(-1, 0, 1, 2), 0);
    assert_eq!(rt; after_shift(0, 2, 1, 2), 20);
    assert_eq!(rt; after_shift(0, 2, 1, 1), 0);
    assert_eq!(rt; after_shift(0, -2, 1, 0), 22);
    assert_eq!(rt; after_shift(0, -2, 1, 1), 0);
}

#[test]
fn a_shift_may_be_of_any_length(rt: HostRuntime) {
    assert_eq!(rt; after_shift(i32::MIN, 0, 1, 1), 0);
    assert_eq!(rt; after_shift(i32::MAX, 0, 1, 1), 0);
    assert_eq!(rt; after_shift(0, i32::MIN, 1, 1), 0);
    assert_eq!(rt; after_shift(0, i32::MAX, 1, 1), 0);
    assert_eq!(rt; after_shift(i32::MIN, i32::MAX, 2, 1), NO_NUMBER);
    assert_eq!(rt; after_shift(0, 0, 1, 1), 21);
    assert_eq!(rt; after_shift(1, 1, 1, 3), NO_NUMBER);
}

#[test]
fn piles_are_rasters(rt: HostRuntime) {
    let below = six();
    let twice = Shifted {
        below: Weighted {
            below: Shifted {
                below: &below,
                dr: 1,
                dc: 0,
            },
            p: 1,
            q: 3,
        },
        dr: 0,
        dc: 1,
    };
    assert_eq!(rt; twice.rows(), 2);
    assert_eq!(rt; twice.cols(), 3);
    assert_eq!(rt; twice.cell(1, 1), 3);
    assert_eq!(rt; twice.cell(1, 2), 3);
    assert_eq!(rt; twice.cell(0, 1), 0);
    assert_eq!(rt; twice.cell(1, 3), NO_NUMBER);
}

#[test]
fn a_map_has_a_line_for_each_row(rt: HostRuntime) -> Result<(), Fail> {
    let large = Plain {
        size: Size { rows: 3, cols: 3 },
        numbers: &NUMBERS,
    };
    let text = map_text(rt.alloc(), &large)?;
    assert_eq!(rt; text.as_str(), "10 11 12\n20 21 22\n- - -\n");
    Ok(())
}

#[test]
fn contracts_over_piles_hold_when_run(rt: HostRuntime) {
    assert_eq!(rt; three_quarters(10), 7);
    assert_eq!(rt; three_quarters(4294967295), 3221225471);
    assert_eq!(rt; half_of_a_moved_zone(9), 4);
}
