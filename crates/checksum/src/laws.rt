// The laws of specs/Laws.antt and specs/Damage.antt: functions with no body, whose contracts they are.
ghost use Rattle.checksum.specs.Damage.{DamageLaws};
ghost use Rattle.checksum.specs.Laws.{LinearLaws};

pub fn linear()
    ensures { LinearLaws }
{}

// RULES 6.6: what is always caught, and the limit of it.
pub fn damage()
    ensures { DamageLaws }
{}
