//! Laws of the checksum of a picture, each the contract of a function without a body. No program is built on them.
#![tactic(auto)]

ghost use Rattle.ans_sums_laws.specs.SumLaws.{SumsTellDrawings, SumsTellPictures};

/// Two pictures have the same summed bytes exactly if they have the same size, and the same byte and attribute at each
/// position. So the pictures of two good contents have, whatever bytes the contents show them with, and from whatever
/// starts. What is left to SHA-256 is that different bytes have different sums.
pub fn one_sum_of_each_picture()
    ensures pictures { SumsTellPictures }
    ensures drawings { SumsTellDrawings }
{}
