//! The laws of range texts and of their sets. The functions here do nothing: the contract of each is a law.
ghost use Rattle.std.specs.Prelude.{◌≡◌, ◌++◌, ℕ, List};
ghost use Rattle.semver_cuts.specs.Ends.{Ends};
ghost use Rattle.semver_texts.specs.Version.{VersionValue};
ghost use Rattle.semver_sets.specs.Comparator.{Comparator};
ghost use Rattle.semver_sets.specs.Merging.{AdmitsTheSame, AreSetsOfText, HasOneMerging, HasOneSet, IsSetOf, LosesNothing};
ghost use Rattle.semver_sets.specs.RangeLaws.{HasWriting, IsOneHyphenRange, IsOnePartial, IsOneSimpleWord};
ghost use Rattle.semver_sets.specs.RangeLaws.{IsWrittenOneWay, MeansItsSets};
ghost use Rattle.semver_sets.specs.RangeSets.{IsRangeValue};
ghost use Rattle.semver_sets.specs.ReadingBack.{RangeReadsBack};
ghost use Rattle.semver_sets.specs.Union.{AreJoinable, joined_text};

/// Each text can be divided into alternatives and words in exactly one way. So it has exactly one list of alternatives,
/// each with its list of comparators.
pub fn every_range_text_is_written_one_way()
    ensures exists { (text : List ℕ) → HasWriting text }
    ensures only { (text : List ℕ) → IsWrittenOneWay text }
{}

/// A text is at most one partial. As a word, it gives at most one comparator, whether it is a hyphen range or a word of
/// another kind.
pub fn a_text_is_at_most_one_partial()
    ensures partial { (text : List ℕ) → IsOnePartial text }
    ensures hyphen { (text : List ℕ) → IsOneHyphenRange text }
    ensures simple { (text : List ℕ) → IsOneSimpleWord text }
{}

/// If there is at least one comparator, the comparators merge into exactly one set.
///
/// The set begins at their greatest lower end and ends at their least upper end: that of
/// `>=1.0.0 >=1.2.0 <2.0.0 <3.0.0` is `>=1.2.0 <2.0.0`. If only builds distinguish equal ends, it has the last of the
/// lower ends and the first of the upper ends.
pub fn comparators_have_one_set()
    ensures one { (comparators : List Comparator) → HasOneSet comparators }
{}

/// Merging comparators loses nothing: their set admits exactly the versions that they admit.
///
/// A prerelease is admitted only if an end of one of the comparators opens its triple, and the set keeps only two of
/// the ends. For a prerelease inside all comparators, one of these two opens its triple exactly if some end does. The
/// reason: the set's end lies between the end that opens the triple and the prerelease. So `>=1.2.3-a >=1.2.3-b` admits
/// `1.2.3-c`, as `>=1.2.3-b` does.
pub fn merging_loses_nothing()
    ensures opened { (comparators : List Comparator) (set : Ends VersionValue) (v : VersionValue) →
        IsSetOf comparators set → LosesNothing comparators set v }
    ensures admits { (comparators : List Comparator) (set : Ends VersionValue) (v : VersionValue) →
        IsSetOf comparators set → AdmitsTheSame comparators set v }
{}

/// A range text has at most one list of sets, including the versions and builds of their ends.
pub fn a_text_writes_one_list_of_sets()
    ensures { (text : List ℕ) → HasOneMerging text }
{}

/// A text means what the list of its sets means: it is refused exactly if the list is empty, and it admits exactly the
/// versions that one of the sets admits. Each set contains a cut and has ends that a text can write.
pub fn a_text_means_its_sets()
    ensures { (text : List ℕ) (sets : List (Ends VersionValue)) → AreSetsOfText text sets → MeansItsSets text sets }
{}

/// The print of sets is read as equal sets, if each has an end and no number of an end is greater than
/// `MAX_SAFE_INTEGER`.
pub fn prints_are_read_back()
    ensures { (sets : List (Ends VersionValue)) → IsRangeValue sets → RangeReadsBack sets }
{}

/// Two texts with `||` between them write the sets of the one and then those of the other, if the first does not end
/// in `|` and the second does not begin with a blank.
pub fn joined_texts_write_all_sets()
    ensures { (one other : List ℕ) (sets others : List (Ends VersionValue)) → AreJoinable one other →
        AreSetsOfText one sets → AreSetsOfText other others → AreSetsOfText (joined_text one other) (sets ++ others) }
{}
