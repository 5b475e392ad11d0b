//! Laws of the classes of starts.

ghost use Rattle.ans_laws.specs.StartLaws.{AllKnownIsOne, BothKnownIsGreatest, CoversAllBut, CoversGood, CoversStarts};
ghost use Rattle.ans_laws.specs.StartLaws.{HighIsStart, KnownPartsTogether, LowIsStart, NoneKnownIsEvery};
ghost use Rattle.ans_laws.specs.StartLaws.{OnePartIsKnown};
ghost use Rattle.ans_model.specs.declared.start.Start.{Start};

/// Where nothing is known, a start is every state of the machine; where all is known, it is the one
/// cleared state.
pub fn classes_are_their_starts()
    ensures any { NoneKnownIsEvery }
    ensures cleared { AllKnownIsOne }
{}

/// If only one part is known, it has its value on the cleared screen, and the others have any.
pub fn parts_are_what_they_say()
    ensures { OnePartIsKnown }
{}

/// If the known parts of two classes are known together, the starts are those that both classes have. So each class has
/// the starts that its known parts, each by itself, have in common.
pub fn parts_are_known_together()
    ensures { KnownPartsTogether }
{}

/// Each of the 32 classes has a start.
pub fn classes_have_starts()
    ensures low { LowIsStart }
    ensures high { HighIsStart }
{}

/// Where a class covers another, it has all of the other's starts, and what is good for it is good
/// for the other with the same picture.
pub fn covered_classes_keep_what_is_good()
    ensures starts { CoversStarts }
    ensures good { CoversGood }
{}

/// Of two classes, the class that knows what both know is covered by exactly those that cover both.
/// The class of all parts but one is covered by exactly those that do not know that part.
pub fn classes_are_covered_by_their_parts()
    ensures both { BothKnownIsGreatest }
    ensures all_but_one { (class : Start) → CoversAllBut class }
{}
