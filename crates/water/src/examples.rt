// The worked examples.
ghost use Rattle.water.specs.Examples.{Shown, seven, worked};

// From the dry site on, each step leaves and answers what the list says.
pub fn the_worked_examples_hold()
    ensures { Shown seven worked }
{}
