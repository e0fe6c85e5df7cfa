ghost use Rattle.map_print.specs.PlainRests.{PlainRests};

/// Beside a page in an ordinary folder, what has ordinary names behind that folder is short, and needs no parse.
pub fn plain_rests()
    ensures { PlainRests }
{}
