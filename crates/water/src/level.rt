// The laws of the water's level.
ghost use Rattle.water.specs.Level.{LevelLaw, OutletLevelLaw};

// Over a basin one pool is topmost, and the level is all the water in it; over an outlet it is 0.
pub fn the_level_is_that_of_the_topmost_pool()
    ensures pool { LevelLaw }
    ensures outlet { OutletLevelLaw }
{}
