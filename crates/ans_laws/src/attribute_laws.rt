//! What the table of colour parameters does to an attribute's fields.

ghost use Rattle.ans_laws.specs.AttributeLaws.{EachAfterTheOthers, NoneChangeNothing, ParametersSetFields};

/// Each line of the table sets some fields and keeps the others. A number without a line changes
/// nothing.
pub fn parameters_set_fields()
    ensures { ParametersSetFields }
{}

/// Several parameters apply one after the other, the first one first.
pub fn parameters_apply_in_turn()
    ensures none { NoneChangeNothing }
    ensures each { EachAfterTheOthers }
{}
