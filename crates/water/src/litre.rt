// The laws of the single litre's walk.
ghost use Rattle.water.specs.Litre.{RestLaw, LitreLaw};

pub fn a_litre_rests_in_one_record()
    ensures { RestLaw }
{}

// Rain litre by litre has one result, and that is what pouring all at once gives.
pub fn the_litre_walk_is_bulk_pouring()
    ensures { LitreLaw }
{}
