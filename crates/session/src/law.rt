ghost use Rattle.session.specs.History.{Law};

// Whatever lines came, each is answered as the lines before it make due: get with the numbers of the last accepted put to
// its slot, unless an accepted form, or an accepted clear of it, came after.
pub fn lines_law()
    ensures { Law }
{}
