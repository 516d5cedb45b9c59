//! A single wish is answered as npm would pick.
ghost use Rattle.std.specs.Prelude.{◌≡◌, ℕ, List, Result, ◌∷◌, []};
ghost use Rattle.serde_json.specs.Data.{Data};
ghost use Rattle.npm_resolve_laws.specs.Alike.{AreAlike, HasKeysOnce};
ghost use Rattle.npm_resolve_laws.specs.Firsts.{AgreesWith};
ghost use Rattle.npm_resolve.specs.Candidates.{AreCandidates};
ghost use Rattle.npm_resolve.specs.Meanings.{IsMeaning, MeaningValue};
ghost use Rattle.npm_resolve.specs.declared.candidates.candidate.Candidate.{Candidate};
ghost use Rattle.npm_resolve.specs.declared.candidates.options.Options.{Options};
ghost use Rattle.npm_pick.specs.Pick.{IsPicked, PickedValue};
ghost use Rattle.npm_pick.specs.declared.error.PickError.{PickError};
ghost use Rattle.npm_texts.specs.RangeText.{filled};
ghost use Rattle.serde_json.specs.View.{view};
ghost use Rattle.serde_json.specs.declared.value.Value.{Value};
ghost use Rattle.npm_resolve.specs.Asks.{AskValue};
ghost use Rattle.npm_resolve.specs.declared.candidates.options.Omits.{Omits};
ghost use Rattle.npm_resolve.specs.declared.candidates.owner.Reach.{Reach};
ghost use Rattle.npm_resolve.specs.Answers.{IsAnswer};
ghost use Rattle.npm_resolve.specs.declared.answer.Answer.{Answer};
ghost use Rattle.npm_resolve.specs.declared.documents.Document.{Document};
ghost use Rattle.npm_resolve_laws.specs.Single.{IsAsPicked, IsSingleWish};
ghost use Rattle.npm_texts.specs.RegistrySpec.{RegistrySpecValue};
ghost use Rattle.npm_pick.specs.declared.options.Options as Picking;

/// The law: the first candidate of a document that a text allows is the version that [`npm_pick::pick`] picks for the text, with its
/// manifest; and where it picks none, no candidate is allowed.
///
/// The default tag, the time and the version of Node are the same for both, and the lowest version is not preferred. A pick has more
/// options, which are left out here: a version of npm, a range to avoid, and staged versions. A key that is no version is never a
/// candidate, though a pick takes it by a tag; of such a pick the law says nothing.
///
/// # Memory
///
/// Does not allocate.
///
/// # Examples
///
/// Of 1.2.0, 1.3.0 and 2.0.0, where `latest` is 1.2.0, `^1` allows the candidates 1.2.0 and 1.3.0, in this order, and 1.2.0 is picked. If
/// a policy restricts 2.0.0, `^2` allows none, and a pick returns `Forbidden`.
pub fn the_first_candidate_is_picked()
    ensures { (packument : Data) (options : Options) (picking : Picking.Options) (candidates : List Candidate) (text : List ℕ)
        (meaning : MeaningValue) (answer : Result PickedValue PickError) → AreAlike options picking → HasKeysOnce packument
        → AreCandidates packument options candidates → IsMeaning packument options.before text meaning
        → IsPicked packument picking (filled text) answer → AgreesWith meaning candidates answer }
{}

/// The law: if a root asks for one name, and the candidates of its document ask for nothing, [`npm_resolve::resolved`] selects the version
/// that `npm_pick::pick` picks for the wish, and no other; and where no selection fits, none is picked.
///
/// Its premises are those of [`the_first_candidate_is_picked`]; the wish must be met, and it asks for the package of the
/// document; the lock file, if there is one, has no version for the name; and the wish is not left out, as an optional dependency that no
/// version meets is. `resolved` may still run out of steps, and then says so.
///
/// # Memory
///
/// Does not allocate.
///
/// # Examples
///
/// For `{"dependencies": {"a": "^1"}}` and a document of `a` with 1.2.0, 1.3.0 and 2.0.0, where `latest` is 1.2.0, both choose 1.2.0.
pub fn one_wish_is_answered_as_picked()
    ensures { (manifests : List Value) (document : Document) (options : Options) (reach : Reach) (omits : Omits) (wish : AskValue)
        (request : RegistrySpecValue) (picking : Picking.Options) (picked : Result PickedValue PickError) (answer : Answer)
        → IsSingleWish manifests document options reach omits wish request → AreAlike options picking
        → HasKeysOnce (view document.packument) → IsPicked (view document.packument) picking (filled request.text) picked
        → IsAnswer manifests (document ∷ []) options reach omits answer → answer.unmet.items ≡ []
        → IsAsPicked wish request picked answer.resolution }
{
    the_first_candidate_is_picked();
}
