// The law of rains one after another.
ghost use Rattle.water.specs.Rains.{EqualRainLaw, EqualRainOnLeavesLaw};

// Only how much falls at each leaf counts, from any tree.
pub fn equal_rain_on_every_leaf_gives_equal_water()
    ensures numbers { EqualRainLaw }
    ensures leaves { EqualRainOnLeavesLaw }
{}
