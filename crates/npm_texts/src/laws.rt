//! The laws of specs. The functions here do nothing: the contract of each is a law.
ghost use Rattle.std.specs.Prelude.{ℕ, List};
ghost use Rattle.npm_texts.specs.RegistrySpec.{RegistrySpecValue};
ghost use Rattle.npm_texts.specs.SpecGrammar.{SpecValue};
ghost use Rattle.npm_texts.specs.SpecLaws.{IsAskedAsWritten, IsNamedAsWritten, IsOneSpec, IsSpecAsWritten};

/// Each text is exactly one thing of the grammar of specs, and the definitions of [`spec_of`](crate::spec_of) give it. Those
/// of [`aliased_name`](crate::aliased_name) give a name exactly if the text is an alias of this package there, and those of
/// [`registry_spec`](crate::registry_spec) a package and a text exactly if the spec has them there.
pub fn specs_are_those_of_the_grammar()
    ensures read { (text : List ℕ) (value : SpecValue) → IsSpecAsWritten text value }
    ensures one { (text : List ℕ) → IsOneSpec text }
    ensures named { (text name : List ℕ) → IsNamedAsWritten text name }
    ensures asked { (name spec : List ℕ) (one : RegistrySpecValue) → IsAskedAsWritten name spec one }
{}
