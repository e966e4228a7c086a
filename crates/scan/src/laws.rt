// The scan over whole stacks, as theorems.
ghost use Rattle.scan.specs.Laws.{Example, Exact, Unique};

// The codes that the steps of all frames give are the list of the stack's roots, and there is no other such list.
pub fn scan_is_exact()
    ensures exact { Exact }
    ensures unique { Unique }
    ensures example { Example }
{}
