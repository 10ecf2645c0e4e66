// What holds over all calls: functions that do nothing, whose contracts say it.
ghost use Rattle.bellgantlet.specs.SingleWalk.{SingleWalk};

pub fn single_walk()
    ensures { SingleWalk }
{}
