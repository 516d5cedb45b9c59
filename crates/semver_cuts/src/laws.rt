//! Laws of the order of cuts and of lists of spans. The functions here do nothing. The contract of each is a law, which
//! is proved for every type with a total order.
ghost use Rattle.std.specs.Prelude.{◌≡◌, ◌≢◌, ◌↔◌, ◌⊎◌, List, [], length};
ghost use Rattle.std.specs.declared.cmp.Ordering.{Ordering};
ghost use Rattle.semver_cuts.specs.declared.cut.Cut.{Cut};
ghost use Rattle.semver_cuts.specs.Cut.{cut_cmp};
ghost use Rattle.semver_cuts.specs.CutLaws.{IsOrderOfCuts, NoneBetween};
ghost use Rattle.semver_cuts.specs.Ends.{Ends};
ghost use Rattle.semver_cuts.specs.SpanLists.{IsInSome};
ghost use Rattle.semver_cuts.specs.CommonSpans.{common_spans};
ghost use Rattle.semver_cuts.specs.Difference.{AreDifference};
ghost use Rattle.semver_cuts.specs.Joined.{AreJoined, AreMerged, AreRising, AreSameSpans};
ghost use Rattle.semver_cuts.specs.Sharing.{ShareCut};
ghost use Rattle.semver_cuts.specs.Starts.{count_of_starts};

/// The order of cuts: `Start` is first and `End` last, and for values `v` less than `w` the order is `Before(v)`,
/// `After(v)`, `Before(w)`, `After(w)`.
///
/// Values that compare as equal have the same two cuts, and no cut lies between these two. No other order of the cuts
/// has these properties.
pub fn cuts_stand_in_order<T: Ord>()
    ensures order { IsOrderOfCuts T.cmp (cut_cmp T.cmp) }
    ensures only { (order : Cut T → Cut T → Ordering) → IsOrderOfCuts T.cmp order →
        (c d : Cut T) → order c d ≡ cut_cmp T.cmp c d }
    ensures between { (v : T) → NoneBetween (cut_cmp T.cmp) v }
{}

/// The intersection of two lists and their difference divide the cuts of the first list: each of its cuts lies in one
/// of the two, and none in both.
///
/// The intersection is empty exactly if no cut lies in a span of each list. The difference is empty exactly if each cut
/// of the first list lies in a span of the second.
pub fn common_and_difference_part_the_cuts<T: Ord>()
    ensures common { (ones others : List (Ends T)) (cut : Cut T) → IsInSome T.cmp (common_spans T.cmp ones others) cut
        ↔ IsInSome T.cmp ones cut × IsInSome T.cmp others cut }
    ensures difference { (ones others spans : List (Ends T)) → AreDifference T.cmp ones others spans → (cut : Cut T)
        → IsInSome T.cmp spans cut ↔ IsInSome T.cmp ones cut × ¬ IsInSome T.cmp others cut }
    ensures together { (ones others spans : List (Ends T)) → AreDifference T.cmp ones others spans → (cut : Cut T)
        → (IsInSome T.cmp (common_spans T.cmp ones others) cut ⊎ IsInSome T.cmp spans cut) ↔ IsInSome T.cmp ones cut }
    ensures disjoint { (ones others spans : List (Ends T)) → AreDifference T.cmp ones others spans → (cut : Cut T)
        → IsInSome T.cmp (common_spans T.cmp ones others) cut → ¬ IsInSome T.cmp spans cut }
    ensures no_common { (ones others : List (Ends T)) → common_spans T.cmp ones others ≡ []
        ↔ ¬ ShareCut T.cmp ones others }
    ensures no_difference { (ones others spans : List (Ends T)) → AreDifference T.cmp ones others spans → spans ≡ []
        ↔ ((cut : Cut T) → IsInSome T.cmp ones cut → IsInSome T.cmp others cut) }
{}

/// If one list shares a cut with another, then the other shares one with it. Two lists share a cut exactly if their
/// intersection is not empty.
pub fn sharing_is_symmetric<T: Ord>()
    ensures back { (ones others : List (Ends T)) → ShareCut T.cmp ones others → ShareCut T.cmp others ones }
    ensures common { (ones others : List (Ends T)) → ShareCut T.cmp ones others
        ↔ common_spans T.cmp ones others ≢ [] }
{}

/// Merged lists with the same cuts have equal spans, in the same order. So the cuts of a list determine the spans that
/// it is joined to.
///
/// If each span of a list contains a cut, the number of its merged spans is the number of spans whose lower end no
/// earlier span has, and that no span of the list reaches from below.
pub fn merged_spans_are_fixed_by_their_cuts<T: Ord>()
    ensures same { (ones others : List (Ends T)) → AreMerged T.cmp ones → AreMerged T.cmp others
        → ((cut : Cut T) → IsInSome T.cmp ones cut ↔ IsInSome T.cmp others cut) → AreSameSpans T.cmp ones others }
    ensures count { (spans joined : List (Ends T)) → AreRising T.cmp spans → AreJoined T.cmp spans joined
        → length joined ≡ count_of_starts T.cmp spans }
{}
