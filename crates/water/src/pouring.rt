// The laws of pouring litres into a tree.
ghost use Rattle.water.specs.Laws.{NothingLaw, AddingLaw, BrimLaw, OrderLaw};
ghost use Rattle.water.specs.Laws.{BalanceLaw, SiteBalanceLaw, ShapeLaw};
ghost use Rattle.water.specs.Laws.{SoundLaw, FullLaw, OverflowLaw, VolumeLaw, FullVolumeLaw};
ghost use Rattle.water.specs.Laws.{ClosedLaw, OpenLaw, RoomLaw};

// Pouring nothing changes nothing, and what is poured at a leaf adds up.
pub fn litres_add_up_at_a_leaf()
    ensures nothing { NothingLaw }
    ensures adding { AddingLaw }
{}

pub fn pouring_in_either_order_gives_the_same_tree()
    ensures { OrderLaw }
{}

// Once any litre has left a tree, the tree is full and takes none any more.
pub fn a_tree_that_overflows_takes_nothing_more()
    ensures brim { BrimLaw }
    ensures filled { OverflowLaw }
{}

pub fn no_litre_is_lost_or_made()
    ensures balance { BalanceLaw }
    ensures site { SiteBalanceLaw }
{}

pub fn pouring_changes_only_water()
    ensures { ShapeLaw }
{}

// Pouring keeps water within the volumes, no depression ever holds more than its own, and a full one holds just that.
pub fn water_stays_within_volumes()
    ensures kept { SoundLaw }
    ensures below { VolumeLaw }
    ensures brim { FullVolumeLaw }
{}

pub fn a_full_tree_lets_all_pass()
    ensures { FullLaw }
{}

// A closed tree lets out what it has no room for, an open one nothing.
pub fn only_what_has_no_room_leaves()
    ensures closed { ClosedLaw }
    ensures outlet { OpenLaw }
    ensures room { RoomLaw }
{}
