//! That there is one order of what threads do.
ghost use Rattle.one_order.specs.Orders.{ThereIsOneOrder};

/// What threads did in one history, and posted to each other and heard, stands in one order of all. It is the order of each thread and that of the history, and each word is posted before it is heard.
pub fn there_is_one_order<A>()
    ensures { ThereIsOneOrder A }
{}
