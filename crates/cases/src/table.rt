ghost use Rattle.cases.specs.Table.{Cases};

// The worked cases hold of the definitions. Answers how many there are.
pub fn cases_stand() -> u8
    ensures { Cases }
{
    11
}
