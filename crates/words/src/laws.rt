// The laws of specs/Word.antt: functions with no body whose contracts they are.
ghost use Rattle.words.specs.Word.{WordLaws, ManyWordLaws, PatchWordLaws, AllocationWordLaws, SignaturesWordLaws, ConversionWordLaws, VerdictWordLaws};

// What the result word of a reception holds: a number of RULES 4.10 or 20; and every value that is handed out fits its field and is read back from it.
pub fn word_fields()
    ensures { WordLaws }
{}

// What the result word of several receptions holds, the same way.
pub fn many_word_fields()
    ensures { ManyWordLaws }
{}

// What the result word of a correction holds, the same way.
pub fn patch_word_fields()
    ensures { PatchWordLaws }
{}

// What the result word of an allocator holds, the same way.
pub fn allocation_word_fields()
    ensures { AllocationWordLaws }
{}

// What the result word of signatures holds, the same way.
pub fn signatures_word_fields()
    ensures { SignaturesWordLaws }
{}

// What the result word of a conversion holds, the same way.
pub fn conversion_word_fields()
    ensures { ConversionWordLaws }
{}

// What the result word of a verdict holds, the same way.
pub fn verdict_word_fields()
    ensures { VerdictWordLaws }
{}
