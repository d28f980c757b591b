// The laws of specs/Laws.antt: a function with no body for each, whose contract it is.
ghost use Rattle.dsdl_laws.specs.Laws.{EqualForms, WhiteSpace, FormOfForm};

pub fn equal_forms()
    ensures { EqualForms }
{}

pub fn white_space()
    ensures { WhiteSpace }
{}

pub fn form_of_form()
    ensures { FormOfForm }
{}
