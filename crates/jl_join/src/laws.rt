//! What definitions of joined items come to.
ghost use Rattle.std.specs.Prelude.{◌≡◌, ◌+◌, ◌<◌, List, [], ◌∷◌, ◌++◌, length, map};
ghost use Rattle.std.specs.List.{flat_map};
ghost use Rattle.jl_base.specs.Terms as said;
ghost use Rattle.jl_join.specs.Relabelling.{relabelled_label, relabelled};
ghost use Rattle.jl_join.specs.Labels.{labels_of};
ghost use Rattle.jl_join.specs.Merging.{joined_item, merged, parts, AreCut};

/// No label of one file becomes a label of another: a renamed label tells its file and what it was.
#[tactic(auto, using(crate::proofs::LabelLemmas::labels_apart))]
pub fn labels_stay_apart(k: u32, other: u32, label: &[u8], second: &[u8])
    ensures { relabelled_label k label.now ≡ relabelled_label other second.now → (k ≡ other) × (label.now ≡ second.now) }
{}

/// The labels of a relabelled item are its labels, each of them renamed, and two items of one file that differ do so
/// after they were relabelled.
#[tactic(auto, using(crate::proofs::LabelLemmas::labels_of_item, crate::proofs::LabelLemmas::items_apart))]
pub fn items_stay_apart(k: u32)
    ensures labels { (item : said.Item) → labels_of (relabelled k item) ≡ map (relabelled_label k) (labels_of item) }
    ensures apart { (first : said.Item) (second : said.Item) → relabelled k first ≡ relabelled k second → first ≡ second }
{}

/// Files are merged one after another, each under the next number.
#[tactic(auto, using(crate::proofs::MergedLemmas::no_files, crate::proofs::MergedLemmas::next_file))]
pub fn files_are_merged(is_quads: bool)
    ensures none { merged is_quads [] ≡ [] }
    ensures next { (files : List (List said.Item)) (file : List said.Item) → merged is_quads (files ++ file ∷ []) ≡ merged is_quads files ++ map (joined_item is_quads (length files + 1)) file }
{}

/// The parts of a list of items, put together, are the list, and each has n items, but for the last, which has 1 to n.
#[tactic(auto, using(crate::proofs::PartLemmas::together, crate::proofs::PartLemmas::are_cut))]
pub fn parts_are_the_items(n: u64)
    ensures together { (items : List said.Item) → 0 < n → flat_map (λ (part : List said.Item). part) (parts items n) ≡ items }
    ensures cut { (items : List said.Item) → 0 < n → AreCut n (parts items n) }
{}
