// What the call answers.
ghost use Rattle.std.specs.Prelude.{◌≡◌};
ghost use Rattle.dsdl_signature.specs.Call.{refusal_number, refused_definition, refused_line};

use super::fault::Fault;

// Why a call gives no signatures.
#[derive(Clone, Copy, Debug, PartialEq, Eq)]
pub enum Refusal {
    // 43: more definitions than 8, or one that is too long, or a name twice.
    Oversized,
    // 40: a definition is not in the grammar.
    Faulty(Fault),
    // 41: a nested type that is not given, or is a service.
    Missing,
    // 42: nesting in a circle or too deep.
    Deep,
    // 8: the output buffer or the records are too short.
    Short,
}

pub type Answer = Result<(), Refusal>;

impl Refusal {
    pub fn number(self) -> u32
        ensures { result ≡ refusal_number self }
    {
        match self {
            Refusal::Oversized => 43,
            Refusal::Faulty(_) => 40,
            Refusal::Missing => 41,
            Refusal::Deep => 42,
            Refusal::Short => 8,
        }
    }

    // The definition at fault; 0 if the number is not 40.
    pub fn definition(self) -> u32
        ensures { result ≡ refused_definition self }
    {
        match self {
            Refusal::Faulty(fault) => fault.definition,
            _ => 0,
        }
    }

    // The line at fault; 0 if the number is not 40.
    pub fn line(self) -> u32
        ensures { result ≡ refused_line self }
    {
        match self {
            Refusal::Faulty(fault) => fault.line.0,
            _ => 0,
        }
    }
}
