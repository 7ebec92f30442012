//! What a written label tells of the label.
ghost use Rattle.std.specs.Prelude.{◌≡◌};
ghost use Rattle.jl_text.specs.Line.{label_written};
ghost use Rattle.jl_text.specs.Labels.{label_read};

/// A written label is read back from the left, so two different labels are never written alike.
#[tactic(auto, using(crate::proofs::LabelLemmas::read_back, crate::proofs::LabelLemmas::stay_apart))]
pub fn labels_stay_apart(first: &[u8], second: &[u8])
    ensures read_back { label_read (label_written first.now) ≡ first.now }
    ensures apart { label_written first.now ≡ label_written second.now → first.now ≡ second.now }
{}
