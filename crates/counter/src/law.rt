// What the counter promises of its minutes, whatever happens to it.
ghost use Rattle.counter.specs.Minutes.{MinutesAddUp};

// Over any list of takes and fires from the first state, for each minute what was emitted for it and what is open in it
// add up to what was taken in it.
pub fn minutes_add_up()
    ensures { MinutesAddUp }
{}
