ghost use Rattle.sig_hist.specs.laws.Histories.{ClosedIsWhole};

/// The law that a closed history goes on no more: a front of a source's history in which all writers have left is the whole
/// of it. It does nothing when it runs.
///
/// Of `ann push 3; ann leave` of ann's alone the front with both entries is closed, and the one with the push isn't.
#[tactic(auto, using(crate::proofs::Staying::closed_is_whole))]
pub fn closed_is_whole()
    ensures { ClosedIsWhole }
{}
