// The law of rain over a depression.
ghost use Rattle.water.specs.Depression.{DepressionLaw};

// Within its free volume rain stays in a depression; more leaves it full and only the rest outside.
pub fn rain_stays_in_a_depression_with_room()
    ensures { DepressionLaw }
{}
